// The C6's codes.
ghost use Rattle.std.specs.Prelude.{◌≡◌};
ghost use Rattle.esp32c6.specs.Code.{init_code_of, cal_code_of};
ghost use Rattle.capi.specs.Answer.{code_c};

use capi::answer::SkvCode;
use esp32c6::code;

// The ADC's initial code for an attenuation. Refusals 1, 20, 7, the map's, 12.
#[unsafe(no_mangle)]
pub extern "C" fn skv_c6_init_code(
    dump: &[u32],
    lengths: &[u8],
    map: &[u8],
    minor: u8,
    unit: u8,
    atten: u8,
) -> SkvCode
    ensures { result ≡ code_c (init_code_of lengths.now dump.now map.now minor unit atten) }
{
    code::rtc_calib_init_code(dump, lengths, map, minor, unit, atten).into()
}

// The ADC's code at the reference voltage of an attenuation. Refusals 1, 20, 7, the map's, 12.
#[unsafe(no_mangle)]
pub extern "C" fn skv_c6_cal_code(
    dump: &[u32],
    lengths: &[u8],
    map: &[u8],
    minor: u8,
    unit: u8,
    atten: u8,
) -> SkvCode
    ensures { result ≡ code_c (cal_code_of lengths.now dump.now map.now minor unit atten) }
{
    code::rtc_calib_cal_code(dump, lengths, map, minor, unit, atten).into()
}
