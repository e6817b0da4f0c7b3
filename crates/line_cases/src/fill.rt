// data/fill: whole tables. data/stretches: stretches of them, with the sum of what is written.
use crate::handed::{Handed, same_by_both, told_c};
use capi::answer::{SkvCount, SkvOutcome};
use capi_line::fill::skv_fill;
use replay::{Case, answer, bytes};
use stretch::fill;
use terms::quantity::Count;
use terms::refusal::{NONE, Refusal, plain};

const COUNTS: usize = 4096;

// What lent numbers hold before a call: no answer is so large.
const BEFORE: u16 = 65535;

// Fills a stretch, and tells whether that has that outcome.
fn fill_by(handed: Handed, first: u16, out: &mut [u16], why: Refusal) -> bool {
    match handed {
        Handed::ToC(cal) => {
            let refusal = told_c(why);
            skv_fill(cal, SkvCount { raw: first }, out) == SkvOutcome { refusal }
        }
        Handed::ToLibrary(cal) => answer::same_outcome(fill::fill(cal, Count(first), out), why),
    }
}

// Fills a table by stretches of n counts, or those that there is room for, each lent as the table's own part. A stretch begins a stride
// after the one before it, around the table's end.
fn fill_cut(
    handed: Handed,
    stretches: u16,
    stride: u16,
    n: usize,
    table: &mut [u16; COUNTS],
) -> bool {
    (0..stretches).all(|k| {
        let first = k.wrapping_mul(stride) % 4096;
        let rest = &mut table[first as usize..];
        let n = n.min(rest.len());
        fill_by(handed, first, &mut rest[..n], plain(NONE))
    })
}

// Whether a table that is so cut holds the case's answers.
fn same_cut(handed: Handed, case: &[u8], stretches: u16, stride: u16, n: usize) -> bool {
    let mut table = [BEFORE; COUNTS];
    let answers = bytes::part(case, 16, 2 * COUNTS).chunks_exact(2);
    fill_cut(handed, stretches, stride, n, &mut table)
        && table
            .iter()
            .zip(answers)
            .all(|(got, answer)| *got == bytes::number16(answer, 0))
}

// Whether a table holds the case's answers however it is cut: as one stretch, in halves, by 64 as the lookup's points stand, one by
// one, by a length that meets no point and is cut short at the end, falling and overlapping, scattered and each count three times.
pub(crate) fn same_fill(Case { bytes: case, .. }: Case) -> bool {
    same_by_both(case, |handed| {
        same_cut(handed, case, 1, 0, 4096)
            && same_cut(handed, case, 2, 2048, 2048)
            && same_cut(handed, case, 64, 64, 64)
            && same_cut(handed, case, 4096, 1, 1)
            && same_cut(handed, case, 111, 37, 37)
            && same_cut(handed, case, 64, 4032, 100)
            && same_cut(handed, case, 4096, 2891, 3)
    })
}

// Whether a stretch is filled as the case says: the numbers that are written have that sum, and the others are as before. A fill that
// is refused writes none.
// Kept: a number, and `NONE` for none: the list has document 01's number, 0 for a good answer, and the outcome is held to it as it is.
fn same_written(handed: Handed, case: &[u8]) -> bool {
    let number = bytes::number8(case, 20);
    let mut room = [BEFORE; 4104];
    let n = room.len().min(bytes::number16(case, 18).into());
    let first = bytes::number16(case, 16);
    let outcome = fill_by(handed, first, &mut room[..n], plain(number));
    let (written, others) = room.split_at(if number == NONE { n } else { 0 });
    let sum = written
        .iter()
        .fold(0u32, |sum, answer| sum.wrapping_add((*answer).into()));
    outcome && sum == bytes::number32(case, 24) && others.iter().all(|other| *other == BEFORE)
}

// The same whoever the record is handed to.
pub(crate) fn same_stretch(Case { bytes: case, .. }: Case) -> bool {
    same_by_both(case, |handed| same_written(handed, case))
}
