// data/calls and data/short_calls: calls on dumps with their maps, and their answers.
use esp32s2::{encryption, version};
use references::s2;
use replay::{Case, answer, bytes, lent};
use s2_codes::code;
use s2_readings::reading;
use s2_readings::tag::RtcCalibParam;
use terms::refusal::Refusal;

// The calls, as the list numbers them; the one that is left is `rtc_calib_cal_mv`.
const VERSION: u8 = 0;

const FLASH_ENCRYPTION: u8 = 1;

const READING: u8 = 2;

const SKIPPED: u8 = 3;

const INIT_CODE: u8 = 4;

const CAL_CODE: u8 = 5;

// Kept: no TryFrom: the numbers are the lists' own and no crate's, and the lists have 0, 1 and 2 alone: there is none to turn down.
fn param_of(number: u8) -> RtcCalibParam {
    match number {
        0 => RtcCalibParam::Vlow,
        1 => RtcCalibParam::Vhigh,
        _ => RtcCalibParam::Vinit,
    }
}

// What the library answers to a case's call.
fn call_answer(dump: &[u32], lengths: &[u8], map: &[u8], case: &[u8]) -> Result<i64, Refusal> {
    let version = bytes::number8(case, 19);
    let unit = bytes::number8(case, 20);
    let atten = bytes::number8(case, 21);
    let param = param_of(bytes::number8(case, 22));
    Ok(match bytes::number8(case, 18) {
        VERSION => version::rtc_calib_version(dump, lengths, map)?.into(),
        FLASH_ENCRYPTION => encryption::flash_encryption(dump, lengths, map)?.into(),
        READING => {
            reading::rtc_calib_reading(dump, lengths, version, unit, atten, param)?.into()
        }
        SKIPPED => reading::rtc_calib_reading_skipped(version, unit, atten, param)?.into(),
        INIT_CODE => code::rtc_calib_init_code(dump, lengths, map, unit, atten)?.into(),
        CAL_CODE => code::rtc_calib_cal_code(dump, lengths, map, unit, atten)?.into(),
        _ => s2::rtc_calib_cal_mv(unit, atten)?.0.into(),
    })
}

// Whether a call is answered as the case says.
pub(crate) fn same_call(asked: Case) -> bool {
    let Case {
        lengths,
        bytes: case,
        ..
    } = asked;
    let map = bytes::part(case, 0, bytes::number8(case, 16) as usize);
    let dump = lent(asked.words, bytes::number8(case, 17));
    answer::same(
        call_answer(dump, lengths, map, case),
        answer::told(case, 23, 28),
        bytes::signed32(case, 24),
    )
}
