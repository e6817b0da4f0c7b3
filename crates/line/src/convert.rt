// Converting a count to millivolts. In esp-hal: `adc_val`.
ghost use Rattle.std.specs.Prelude.{◌≡◌, true, ◌≤◌, eqb};
ghost use Rattle.line_record.specs.Record.{record_refusal};
ghost use Rattle.line.specs.Convert.{line_voltage, mean_of, beyond_line, answer_at, convert_refusal, convert_of};

use crate::lookup::{LUT_LOW_THRESH, LookupCount};
use line_record::record::{LineRecord, check_record, good_record, uses_lookup};
use terms::quantity::{Count, Millivolt};
use terms::refusal::{LAST_COUNT, RAW, Refusal, plain};

pub const COEFF_A_SCALE: u32 = 65536;

pub const COEFF_A_ROUND: u32 = 32768;

pub const LUT_HIGH_THRESH: u32 = 2944;

pub const BLEND: u32 = LUT_HIGH_THRESH - LUT_LOW_THRESH;

// From y1 to y2 over 64 counts: the mean of the two, of which y1 weighs as many counts as are left, and y2 as many as are gone.
#[tactic(auto, using(crate::proofs::Answers::mean_small), unfolding(crate::specs::Convert::mean_of))]
pub fn interpolate_two_points(y1: u16, y2: u16, left: u8, gone: u8) -> u32
    ensures { result ≡ mean_of y1 y2 left gone }
{
    (y1 as u32 * left as u32 + y2 as u32 * gone as u32 + BLEND / 2) / BLEND
}

// Whether a count is past those that the line alone answers.
#[tactic(auto, unfolding(crate::specs::Convert::beyond_line))]
pub fn beyond_line(cal: LineRecord, raw: u32) -> bool
    ensures { result ≡ beyond_line cal raw }
{
    uses_lookup(cal) && LUT_LOW_THRESH <= raw
}

// A conversion that nothing is wrong with.
#[derive(Clone, Copy)]
struct Conversion {
    cal: LineRecord,
    raw: u32,
    ghost accepted: { convert_refusal cal raw ≡ 0 },
}

impl Conversion {
    // The line's millivolts at the count.
    #[tactic(auto, using(crate::proofs::Conversions::line_room), unfolding(crate::specs::Convert::line_voltage))]
    fn calculate_voltage_linear(self) -> u32
        ensures { result ≡ line_voltage self.cal self.raw }
    {
        (self.cal.coeff_a * self.raw + COEFF_A_ROUND) / COEFF_A_SCALE + self.cal.coeff_b
    }

    // The answer past the line: blend or lookup.
    #[tactic(auto, using(crate::proofs::Answers::beyond_line_lem, crate::proofs::Answers::answer_lookup, crate::proofs::Conversions::line_small, crate::proofs::Conversions::lookup_small, crate::proofs::Exactly::convert_good))]
    fn upper_answer(self) -> u32
        requires { beyond_line self.cal self.raw ≡ true }
        ensures { result ≡ answer_at self.cal self.raw }
    {
        let count = LookupCount {
            cal: self.cal,
            raw: self.raw,
        };
        let lut_voltage = count.calculate_voltage_lut();
        if LUT_HIGH_THRESH < self.raw {
            return lut_voltage;
        }
        let linear = self.calculate_voltage_linear();
        let left = (LUT_HIGH_THRESH - self.raw) as u8;
        let gone = (self.raw - LUT_LOW_THRESH) as u8;
        interpolate_two_points(linear as u16, lut_voltage as u16, left, gone)
    }

    // The answer in millivolts: line, blend or lookup.
    #[tactic(auto, using(crate::proofs::Answers::answer_line))]
    fn answer(self) -> u32
        ensures { result ≡ answer_at self.cal self.raw }
    {
        if beyond_line(self.cal, self.raw) {
            self.upper_answer()
        } else {
            self.calculate_voltage_linear()
        }
    }
}

// Whether nothing is wrong with a conversion. Asked before what is: so the usual way has this one test.
#[tactic(auto, using(crate::proofs::Exactly::convert_test))]
fn converts(cal: LineRecord, raw: u16) -> bool
    ensures { result ≡ eqb (convert_refusal cal raw) 0 }
{
    good_record(cal) & (raw <= LAST_COUNT)
}

// The millivolts of a count, at most 12,285. Any count by any record is answered; refusals 10, 8.
#[tactic(auto, using(crate::proofs::Conversions::accepted, crate::proofs::Conversions::answer_small, crate::proofs::Conversions::convert_voltage, crate::proofs::Conversions::refused_record, crate::proofs::Conversions::refused_raw))]
pub fn convert(cal: LineRecord, count: Count) -> Result<Millivolt, Refusal>
    ensures { result ≡ convert_of cal count.0 }
{
    let raw = count.0;
    if converts(cal, raw) {
        let accepted = Conversion {
            cal,
            raw: raw as u32,
        };
        return Ok(Millivolt(accepted.answer() as u16));
    }
    check_record(cal)?;
    Err(plain(RAW))
}
