// The curve's correction of a line answer: `adc_val` of esp-hal's `AdcCalCurve`, calibration/curve.rs.
ghost use Rattle.std.specs.Prelude.{◌≡◌};
ghost use Rattle.curve.specs.Correct.{correct_of};

use crate::table::table_of;
use curves::error::{LARGEST_LINE, less_error};
use terms::chip::Chip;
use terms::quantity::Millivolt;
use terms::refusal::{CURVE, LINE_ANSWER, Refusal, check_unit, plain};

// Corrects a line answer by the curve of its chip, unit and attenuation. Any input is answered; refusals 7, 14, 13. The answer may be
// above the line answer, and above 4095.
#[tactic(auto, using(crate::proofs::Corrections::less_error_good), unfolding(crate::specs::Correct::correct_of, crate::specs::Correct::correct_refusal))]
pub fn correct(chip: Chip, unit: u8, atten: u8, line: Millivolt) -> Result<Millivolt, Refusal>
    ensures { result ≡ correct_of chip unit atten line }
{
    check_unit(unit, atten)?;
    let table = table_of(chip, unit).ok_or(plain(CURVE))?;
    if LARGEST_LINE < line.0 {
        return Err(plain(LINE_ANSWER));
    }
    Ok(Millivolt(less_error(table, atten, line.0)))
}
