// data/decode and data/short_decode: dumps with their maps, and the line records that are decoded of them.
use capi_line::record::SkvLineRecord;
use esp32::decode::decode;
use replay::{Case, answer, bytes, lent};
use terms::refusal::{NONE, plain};

// The record of a case, as C has it, which has a byte for its source. It is of the unit and the attenuation that are asked for.
fn record_of(case: &[u8]) -> SkvLineRecord {
    SkvLineRecord {
        coeff_a: bytes::number32(case, 56),
        coeff_b: bytes::number32(case, 60),
        vref: bytes::number16(case, 54).into(),
        unit: bytes::number8(case, 50),
        attenuation: bytes::number8(case, 51),
        source: bytes::number8(case, 53),
    }
}

// Whether a record is decoded as the case says, or refused; the case has zeros for a line record beside a refusal.
pub(crate) fn same_decode(asked: Case) -> bool {
    let Case {
        lengths,
        bytes: case,
        ..
    } = asked;
    let dump = lent(asked.words, bytes::number8(case, 49));
    let map = bytes::part(case, 0, bytes::number8(case, 48) as usize);
    let unit = bytes::number8(case, 50);
    let atten = bytes::number8(case, 51);
    let why = answer::told(case, 52, 64);
    match decode(dump, lengths, map, unit, atten) {
        Ok(cal) => why == plain(NONE) && SkvLineRecord::from(cal) == record_of(case),
        Err(told) => why == told && bytes::part(case, 53, 11).iter().all(|byte| *byte == 0),
    }
}
