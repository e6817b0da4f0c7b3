// The S2's reference voltages.
ghost use Rattle.std.specs.Prelude.{◌≡◌};
ghost use Rattle.references.specs.S2.{cal_mv_of};
ghost use Rattle.capi.specs.Answer.{voltage_c};

use capi::answer::SkvVoltage;
use references::s2;

// The reference voltage of an attenuation, for either unit. Refusal 7.
#[unsafe(no_mangle)]
pub extern "C" fn skv_s2_cal_mv(unit: u8, atten: u8) -> SkvVoltage
    ensures { result ≡ voltage_c (cal_mv_of unit atten) }
{
    s2::rtc_calib_cal_mv(unit, atten).into()
}
