// data/tables: every curve over all line answers. data/single: any chip, unit, attenuation and line answer.
use curve::correct;
use replay::{Case, answer, bytes};
use terms::chip::numbered;
use terms::quantity::Millivolt;
use terms::refusal::{NONE, Refusal, plain};

const LINE_ANSWERS: u16 = 4096;

// What the library answers to a line answer, by the chip, unit and attenuation at the start of a case.
fn correct_answer(case: &[u8], line: u16) -> Result<u16, Refusal> {
    let chip = numbered(bytes::number8(case, 0), bytes::number8(case, 1));
    let unit = bytes::number8(case, 2);
    let atten = bytes::number8(case, 3);
    correct::correct(chip, unit, atten, Millivolt(line)).map(|corrected| corrected.0)
}

// Whether a curve has the case's answer at every line answer. The case has the signed steps of one byte that lead from answer to answer,
// so nothing wraps that shouldn't.
pub(crate) fn same_table(Case { bytes: case, .. }: Case) -> bool {
    let mut expected = 0u16;
    (0..LINE_ANSWERS).all(|line| {
        let step = bytes::number8(case, 4 + line as usize).cast_signed();
        expected = expected.wrapping_add_signed(step.into());
        answer::same(correct_answer(case, line), plain(NONE), expected.into())
    })
}

// Whether one line answer is corrected as the case says.
pub(crate) fn same_single(Case { bytes: case, .. }: Case) -> bool {
    let got = correct_answer(case, bytes::number16(case, 4));
    let why = plain(bytes::number8(case, 8));
    answer::same(got, why, bytes::number16(case, 6).into())
}
