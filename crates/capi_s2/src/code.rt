// The S2's codes.
ghost use Rattle.std.specs.Prelude.{◌≡◌};
ghost use Rattle.s2_codes.specs.Code.{init_code_of, cal_code_of};
ghost use Rattle.capi.specs.Answer.{code_c};

use capi::answer::SkvCode;
use s2_codes::code;

// The ADC's initial code for a unit and an attenuation. Refusals 1, 20, 7, the map's, 12, 5.
#[unsafe(no_mangle)]
pub extern "C" fn skv_s2_init_code(
    dump: &[u32],
    lengths: &[u8],
    map: &[u8],
    unit: u8,
    atten: u8,
) -> SkvCode
    ensures { result ≡ code_c (init_code_of lengths.now dump.now map.now unit atten) }
{
    code::rtc_calib_init_code(dump, lengths, map, unit, atten).into()
}

// The ADC's code at the reference voltage of a unit and an attenuation. Refusals 1, 20, 7, the map's, 12, 5.
#[unsafe(no_mangle)]
pub extern "C" fn skv_s2_cal_code(
    dump: &[u32],
    lengths: &[u8],
    map: &[u8],
    unit: u8,
    atten: u8,
) -> SkvCode
    ensures { result ≡ code_c (cal_code_of lengths.now dump.now map.now unit atten) }
{
    code::rtc_calib_cal_code(dump, lengths, map, unit, atten).into()
}
