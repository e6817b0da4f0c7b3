// data/samples: samples of two boards, and their millivolts.
use replay::{Case, answer, bytes, lent};
use samples::answer::{decode_sample, sample};
use samples::log::Sample;
use terms::quantity::Count;
use terms::refusal::{NONE, RAW, plain};

fn sample_of(case: &[u8]) -> Sample {
    Sample {
        raw: Count(bytes::number16(case, 56)),
        board: bytes::number8(case, 51),
        last: bytes::number8(case, 52),
    }
}

// Whether a sample is decoded and answered as the case says. Its decoding doesn't look at its count.
pub(crate) fn same_sample(asked: Case) -> bool {
    let Case {
        lengths,
        bytes: case,
        ..
    } = asked;
    let field = lent(asked.words, bytes::number8(case, 49));
    let other = lent(asked.reference, bytes::number8(case, 50));
    let map = bytes::part(case, 0, bytes::number8(case, 48) as usize);
    let of_board = sample_of(case);
    let why = answer::told(case, 53, 54);
    let of_decoding = if why.number == RAW { plain(NONE) } else { why };
    let decoded = decode_sample(field, other, lengths, map, of_board).map(|_| ());
    let voltage = sample(field, other, lengths, map, of_board).map(|voltage| voltage.0);
    answer::same_outcome(decoded, of_decoding)
        && answer::same(voltage, why, bytes::number16(case, 58).into())
}
