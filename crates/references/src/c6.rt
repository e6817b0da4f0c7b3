// The C6's reference voltages, by attenuation.
ghost use Rattle.std.specs.Prelude.{◌≡◌};
ghost use Rattle.references.specs.C6.{cal_mv_of};

use terms::c6_version::rtc_calib_version;
use terms::quantity::Millivolt;
use terms::refusal::{Refusal, check_unit};

const INPUT_VOUT_MV: [u16; 4] = [400, 550, 750, 1370];

const INPUT_VOUT_MV_V2: [u16; 4] = [750, 1000, 1500, 2800];

// The voltage at an attenuation's reference point; version 0 has version 1's. Refusal 7.
#[tactic(auto, using(terms::proofs::Refusals::unit_inside), unfolding(crate::specs::C6::cal_mv_of, crate::specs::C6::millivolts_of))]
pub fn rtc_calib_cal_mv(minor: u8, unit: u8, atten: u8) -> Result<Millivolt, Refusal>
    ensures { result ≡ cal_mv_of minor unit atten }
{
    check_unit(unit, atten)?;
    let version = rtc_calib_version(minor);
    let table = if version == 2 {
        INPUT_VOUT_MV_V2
    } else {
        INPUT_VOUT_MV
    };
    Ok(Millivolt(table[usize::from(atten)]))
}
