// The C6's initial codes and reference codes, by attenuation.
ghost use Rattle.std.specs.Prelude.{◌≡◌, ◌≤◌, ◌<◌, pos, ◌+ℤ◌};
ghost use Rattle.terms.specs.Refusal.{outcome_told, outcome_of};
ghost use Rattle.terms.specs.Sign.{sign_magnitude};
ghost use Rattle.terms.specs.declared.chip.MapChip.TheVariants.{C6};
ghost use Rattle.maps.specs.Told.{told_of};
ghost use Rattle.esp32c6.specs.Code.{version_refusal, code_refusal, init_code_of, offset_of, cal_code_of};

use crate::field::{ADC1_CAL_VOL_ATTEN0, ADC1_INIT_CODE_ATTEN0};
use inputs::input::check_decoding;
use maps::value::record_value;
use terms::c6_version::rtc_calib_version;
use terms::chip::MapChip;
use terms::refusal;
use terms::refusal::{Refusal, plain};
use terms::signed::sign_magnitude;

const INIT_CODE_BASE: u16 = 1600;

const CAL_VOL_BITS: u8 = 10;

// 12 where that minor block version has no calibration.
#[tactic(auto, unfolding(crate::specs::Code::version_refusal))]
fn check_version(minor: u8) -> Result<(), Refusal>
    ensures { result ≡ outcome_of (version_refusal minor) }
{
    match rtc_calib_version(minor) {
        1 | 2 => Ok(()),
        _ => Err(plain(refusal::VERSION)),
    }
}

// The check of a call for a code: 1, 20, 7, the map's, 12.
fn check_code(
    dump: &[u32],
    lengths: &[u8],
    map: &[u8],
    minor: u8,
    unit: u8,
    atten: u8,
) -> Result<(), Refusal>
    ensures { result ≡ outcome_told (told_of lengths.now C6 map.now (code_refusal lengths.now dump.now map.now minor unit atten)) }
{
    check_decoding(MapChip::C6, dump, lengths, map, unit, atten)?;
    check_version(minor)
}

// The ADC's initial code for an attenuation: from 1600 to 34367. Refusals 1, 20, 7, the map's, 12.
pub fn rtc_calib_init_code(
    dump: &[u32],
    lengths: &[u8],
    map: &[u8],
    minor: u8,
    unit: u8,
    atten: u8,
) -> Result<u16, Refusal>
    ensures { result ≡ init_code_of lengths.now dump.now map.now minor unit atten }
{
    check_code(dump, lengths, map, minor, unit, atten)?;
    let init_code = record_value(dump, lengths, map, ADC1_INIT_CODE_ATTEN0 + (atten as usize));
    Ok(init_code as u16 + INIT_CODE_BASE)
}

// What a reference code is counted from.
#[tactic(auto, unfolding(crate::specs::Code::offset_of))]
fn chk_offset(version: u8, atten: u8) -> u16
    ensures { result ≡ offset_of version atten }
{
    if version == 1 {
        return 1500;
    }
    if atten == 2 {
        return 2900;
    }
    2850
}

// An offset and a signed code of ten bits.
fn cal_code(offset: u16, cal_vol: u32) -> u16
    requires { (1500 ≤ offset) × (offset ≤ 2900) × (cal_vol < 1024) }
    ensures { pos result ≡ pos offset +ℤ sign_magnitude 10 cal_vol }
{
    (offset as i32 + sign_magnitude(CAL_VOL_BITS, cal_vol as u16)) as u16
}

// The ADC's code at the reference voltage of an attenuation: from 989 to 2011 in version 1, from 2339 to 3411 in version 2. Refusals
// 1, 20, 7, the map's, 12.
pub fn rtc_calib_cal_code(
    dump: &[u32],
    lengths: &[u8],
    map: &[u8],
    minor: u8,
    unit: u8,
    atten: u8,
) -> Result<u16, Refusal>
    ensures { result ≡ cal_code_of lengths.now dump.now map.now minor unit atten }
{
    check_code(dump, lengths, map, minor, unit, atten)?;
    let cal_vol = record_value(dump, lengths, map, ADC1_CAL_VOL_ATTEN0 + (atten as usize));
    Ok(cal_code(chk_offset(rtc_calib_version(minor), atten), cal_vol))
}
