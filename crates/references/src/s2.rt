// The S2's reference voltages, by attenuation.
ghost use Rattle.std.specs.Prelude.{◌≡◌};
ghost use Rattle.references.specs.S2.{cal_mv_of};

use terms::quantity::Millivolt;
use terms::refusal::{Refusal, check_unit};

const CAL_MV: [u16; 4] = [600, 800, 1000, 2000];

// The voltage at an attenuation's reference point, for either unit. Refusal 7.
#[tactic(auto, using(terms::proofs::Refusals::unit_inside), unfolding(crate::specs::S2::cal_mv_of))]
pub fn rtc_calib_cal_mv(unit: u8, atten: u8) -> Result<Millivolt, Refusal>
    ensures { result ≡ cal_mv_of unit atten }
{
    check_unit(unit, atten)?;
    Ok(Millivolt(CAL_MV[usize::from(atten)]))
}
