// The C6's reference voltages.
ghost use Rattle.std.specs.Prelude.{◌≡◌};
ghost use Rattle.references.specs.C6.{cal_mv_of};
ghost use Rattle.capi.specs.Answer.{voltage_c};

use capi::answer::SkvVoltage;
use references::c6;

// The reference voltage of an attenuation. Refusal 7.
#[unsafe(no_mangle)]
pub extern "C" fn skv_c6_cal_mv(minor: u8, unit: u8, atten: u8) -> SkvVoltage
    ensures { result ≡ voltage_c (cal_mv_of minor unit atten) }
{
    c6::rtc_calib_cal_mv(minor, unit, atten).into()
}
