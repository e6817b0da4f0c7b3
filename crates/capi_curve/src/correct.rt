// Curve correction.
ghost use Rattle.std.specs.Prelude.{◌≡◌};
ghost use Rattle.terms.specs.Chip.{numbered};
ghost use Rattle.curve.specs.Correct.{correct_of};
ghost use Rattle.capi_curve.specs.Correct.{millivolt_from};
ghost use Rattle.capi.specs.Answer.{voltage_c};

use capi::answer::{SkvMillivolt, SkvVoltage};
use curve::correct;
use terms::chip::numbered;
use terms::quantity::Millivolt;

// Corrects a line answer by the curve of its chip, unit and attenuation. Refusals 7, 14, 13; a number that names no chip is 14. The
// minor block version is looked at for a C6 alone.
#[unsafe(no_mangle)]
pub extern "C" fn skv_correct(
    chip: u8,
    minor: u8,
    unit: u8,
    atten: u8,
    line: SkvMillivolt,
) -> SkvVoltage
    ensures { result ≡ voltage_c (correct_of (numbered chip minor) unit atten (millivolt_from line)) }
{
    correct::correct(numbered(chip, minor), unit, atten, Millivolt(line.mv)).into()
}
