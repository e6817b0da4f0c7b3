// data/fields and data/bytes, and those of short blocks: fields of a dump, with what esp-hal reads there.
use efuse::field::{EfuseField, read_field, read_field_le};
use replay::{Case, answer, bytes, lent};
use terms::refusal::plain;

// What lent bytes hold before a call.
const BEFORE: u8 = 0xA5;

// The field that a case names.
fn field_of(case: &[u8]) -> EfuseField {
    EfuseField {
        block: bytes::number8(case, 1),
        bit_start: bytes::number16(case, 2),
        bit_count: bytes::number16(case, 4),
    }
}

// Whether a field is read at 8, 16 and 32 bits as the case says.
pub(crate) fn same_field(asked: Case) -> bool {
    let Case {
        lengths,
        bytes: case,
        ..
    } = asked;
    let dump = lent(asked.words, bytes::number8(case, 0));
    let field = field_of(case);
    let why = plain(bytes::number8(case, 6));
    let at8 = bytes::number8(case, 7).into();
    let at16 = bytes::number16(case, 8).into();
    let at32 = bytes::number32(case, 12).into();
    answer::same(read_field::<8>(dump, lengths, field), why, at8)
        && answer::same(read_field::<16>(dump, lengths, field), why, at16)
        && answer::same(read_field::<32>(dump, lengths, field), why, at32)
}

// Whether a field is read into the first n bytes of a room as the case says, and the bytes behind them are left alone.
pub(crate) fn same_bytes(asked: Case) -> bool {
    let Case {
        lengths,
        bytes: case,
        ..
    } = asked;
    let dump = lent(asked.words, bytes::number8(case, 0));
    let mut room = [BEFORE; 40];
    let n = room.len().min(bytes::number8(case, 6).into());
    let got = read_field_le(dump, lengths, field_of(case), &mut room[..n]);
    answer::same_outcome(got, plain(bytes::number8(case, 7)))
        && room.as_slice() == bytes::part(case, 8, 40)
}
