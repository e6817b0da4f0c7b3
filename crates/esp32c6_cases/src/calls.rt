// data/calls and data/short_calls: calls on dumps, with a record of the map replaced, and their answers.
use esp32c6::{channel, code};
use references::c6;
use replay::{Case, answer, bytes, lent};
use terms::c6_version;
use terms::refusal::Refusal;

const RECORD_BYTES: usize = 8;

// The calls, as the list numbers them; the one that is left is `rtc_calib_cal_mv`.
const VERSION: u8 = 0;

const INIT_CODE: u8 = 1;

const CAL_CODE: u8 = 2;

const CHAN_COMPENS: u8 = 3;

// What the library answers to a case's call.
fn call_answer(dump: &[u32], lengths: &[u8], map: &[u8], case: &[u8]) -> Result<i64, Refusal> {
    let minor = bytes::number8(case, 12);
    let unit = bytes::number8(case, 13);
    let atten = bytes::number8(case, 14);
    let channel = bytes::number8(case, 15);
    Ok(match bytes::number8(case, 11) {
        VERSION => c6_version::rtc_calib_version(minor).into(),
        INIT_CODE => code::rtc_calib_init_code(dump, lengths, map, minor, unit, atten)?.into(),
        CAL_CODE => code::rtc_calib_cal_code(dump, lengths, map, minor, unit, atten)?.into(),
        CHAN_COMPENS => {
            channel::rtc_calib_get_chan_compens(dump, lengths, map, unit, channel, atten)?.into()
        }
        _ => c6::rtc_calib_cal_mv(minor, unit, atten)?.0.into(),
    })
}

// Whether a call is answered as the case says. Each case starts from a copy of the map, and replaces one of its records.
pub(crate) fn same_call(good_map: &[u8], asked: Case) -> bool {
    let Case {
        lengths,
        bytes: case,
        ..
    } = asked;
    let mut map = [0u8; 128];
    bytes::put(&mut map, 0, good_map);
    bytes::put(
        &mut map,
        RECORD_BYTES * (bytes::number8(case, 8) as usize),
        bytes::part(case, 0, RECORD_BYTES),
    );
    let lent_map = bytes::part(&map, 0, bytes::number8(case, 9) as usize);
    let dump = lent(asked.words, bytes::number8(case, 10));
    answer::same(
        call_answer(dump, lengths, lent_map, case),
        answer::told(case, 16, 17),
        bytes::signed32(case, 20),
    )
}
