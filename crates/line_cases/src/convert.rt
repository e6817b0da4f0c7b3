// data/convert: counts, and their millivolts by line records.
use crate::handed::{Handed, same_by_both, told_c};
use capi::answer::{SkvCount, SkvMillivolt, SkvOutcome, SkvVoltage};
use capi_line::convert::skv_convert;
use capi_line::record::skv_check_record;
use line::convert;
use line_record::record;
use replay::{Case, answer, bytes};
use terms::quantity::Count;
use terms::refusal::{LINE_RECORD, NONE, Refusal, plain};

// Whether the check of a record has that outcome.
fn same_check(handed: Handed, why: Refusal) -> bool {
    match handed {
        Handed::ToC(cal) => {
            let refusal = told_c(why);
            skv_check_record(cal) == SkvOutcome { refusal }
        }
        Handed::ToLibrary(cal) => answer::same_outcome(record::check_record(cal), why),
    }
}

// Whether a count has that refusal and those millivolts, which are zero beside a refusal.
fn same_answer(handed: Handed, raw: u16, why: Refusal, mv: u16) -> bool {
    match handed {
        Handed::ToC(cal) => {
            let refusal = told_c(why);
            let voltage = SkvMillivolt { mv };
            skv_convert(cal, SkvCount { raw }) == SkvVoltage { refusal, voltage }
        }
        Handed::ToLibrary(cal) => {
            let got = convert::convert(cal, Count(raw)).map(|voltage| voltage.0);
            answer::same(got, why, mv.into())
        }
    }
}

// Whether a record is checked, and a count converted by it, as the case says. A record is turned down exactly where the case has the
// number for that.
pub(crate) fn same_convert(Case { bytes: case, .. }: Case) -> bool {
    let raw = bytes::number16(case, 16);
    let number = bytes::number8(case, 18);
    let mv = bytes::number16(case, 20);
    let of_record = if number == LINE_RECORD { number } else { NONE };
    same_by_both(case, |handed| {
        same_check(handed, plain(of_record)) && same_answer(handed, raw, plain(number), mv)
    })
}
