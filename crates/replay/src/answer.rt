// An answer of the library beside the list's.
use crate::bytes;
use terms::refusal;
use terms::refusal::Refusal;

// The refusal that a case of a call on a map has: its number, then from another place on the record and the byte's place.
pub fn told(case: &[u8], number: usize, record: usize) -> Refusal {
    Refusal {
        number: bytes::number8(case, number),
        record: bytes::number8(case, record),
        place: bytes::number8(case, record.saturating_add(1)),
    }
}

// Whether an answer is the list's, in all that it tells. The list has number 0 beside a value, and the value 0 beside a refusal.
pub fn same<T: Into<i64>>(got: Result<T, Refusal>, why: Refusal, value: i64) -> bool {
    match got {
        Ok(got) => got.into() == value && why == refusal::plain(refusal::NONE),
        Err(told) => value == 0 && why == told,
    }
}

// Whether an outcome is the list's, which has no values.
pub fn same_outcome(got: Result<(), Refusal>, why: Refusal) -> bool {
    same(got.map(|()| 0u8), why, 0)
}
