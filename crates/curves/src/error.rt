// The error of a line answer by a curve, and the line answer less it: `adc_val` of esp-hal's `AdcCalCurve`, calibration/curve.rs. A table
// goes by its number in the flat table.
ghost use Rattle.std.specs.Prelude.{◌≡◌, [], get_or};
ghost use Rattle.curves.specs.Error.{error_of, corrected_of, less_error_of};
ghost use Rattle.curves.specs.Flat.{curves};

use crate::polynomial::Correction;
use terms::refusal::LAST_ATTEN;

// What a coefficient of 1 stands as.
const COEFF_MUL: i64 = 1 << 52;

pub const LAST_TABLE: u8 = 9;

pub const LARGEST_LINE: u16 = 4095;

impl Correction {
    // The error of the line answer, in millivolts.
    fn error_of(self) -> i64
        ensures { result ≡ error_of (get_or curves self.k []) self.v }
    {
        if self.v == 0 {
            return 0;
        }
        self.poly_at() / COEFF_MUL
    }

    // The line answer less its error.
    fn taken_off(self) -> u16
        ensures { result ≡ corrected_of (get_or curves self.k []) self.v }
    {
        ((self.v as i64) - self.error_of()) as u16
    }
}

// A line answer less its error by a table at an attenuation; 0 where there is no such table or attenuation, and for a line answer above
// 4095, which callers refuse before.
#[tactic(auto, using(crate::proofs::Answers::less_error_by), unfolding(crate::specs::Error::less_error_of))]
pub fn less_error(table: u8, atten: u8, v: u16) -> u16
    ensures { result ≡ less_error_of table atten v }
{
    if LAST_TABLE < table || LAST_ATTEN < atten || LARGEST_LINE < v {
        return 0;
    }
    let correction = Correction {
        k: 4 * table + atten,
        v,
    };
    correction.taken_off()
}
