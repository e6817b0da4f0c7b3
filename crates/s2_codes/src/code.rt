// The S2's initial codes and reference codes, by unit and attenuation.
ghost use Rattle.std.specs.Prelude.{◌≡◌};
ghost use Rattle.terms.specs.declared.chip.MapChip.TheVariants.{S2};
ghost use Rattle.terms.specs.Refusal.{outcome_told};
ghost use Rattle.maps.specs.Told.{told_of};
ghost use Rattle.s2_codes.specs.Code.{version_refusal, code_of, init_code_of, cal_code_of};

use esp32s2::version::BLK_VERSION_MINOR;
use inputs::input::check_decoding;
use maps::value::record_value;
use s2_readings::reading::table_reading;
use s2_readings::tag::RtcCalibParam;
use terms::chip::MapChip;
use terms::refusal;
use terms::refusal::{Refusal, plain};

const CODE_VERSION: u8 = 2;

// The check of a call for a code before the table is read: 1, 20, 7, the map's, 12.
fn check_version(
    dump: &[u32],
    lengths: &[u8],
    map: &[u8],
    unit: u8,
    atten: u8,
) -> Result<(), Refusal>
    ensures { result ≡ outcome_told (told_of lengths.now S2 map.now (version_refusal lengths.now dump.now map.now unit atten)) }
{
    check_decoding(MapChip::S2, dump, lengths, map, unit, atten)?;
    if record_value(dump, lengths, map, BLK_VERSION_MINOR) != CODE_VERSION as u32 {
        return Err(plain(refusal::VERSION));
    }
    Ok(())
}

// The code of a parameter, which is version 2's reading, or its refusal.
fn code_of(
    dump: &[u32],
    lengths: &[u8],
    map: &[u8],
    unit: u8,
    atten: u8,
    param: RtcCalibParam,
) -> Result<u16, Refusal>
    ensures { result ≡ code_of lengths.now dump.now map.now unit atten param }
{
    check_version(dump, lengths, map, unit, atten)?;
    let code = table_reading(dump, lengths, CODE_VERSION, unit, atten, param)?;
    Ok(code as u16)
}

// The ADC's initial code for a unit and an attenuation: from 1265 to 2127. Refusals 1, 20, 7, the map's, 12, 5.
// Kept: two calls over one body, here and below; one for both would take any parameter, and the low reading is no code.
pub fn rtc_calib_init_code(
    dump: &[u32],
    lengths: &[u8],
    map: &[u8],
    unit: u8,
    atten: u8,
) -> Result<u16, Refusal>
    ensures { result ≡ init_code_of lengths.now dump.now map.now unit atten }
{
    code_of(dump, lengths, map, unit, atten, RtcCalibParam::Vinit)
}

// The ADC's code at the reference voltage of a unit and an attenuation: from 4321 to 7986. Refusals 1, 20, 7, the map's, 12, 5.
pub fn rtc_calib_cal_code(
    dump: &[u32],
    lengths: &[u8],
    map: &[u8],
    unit: u8,
    atten: u8,
) -> Result<u16, Refusal>
    ensures { result ≡ cal_code_of lengths.now dump.now map.now unit atten }
{
    code_of(dump, lengths, map, unit, atten, RtcCalibParam::Vhigh)
}
