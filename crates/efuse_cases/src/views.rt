// data/views: blocks of two boards, with the words that they have of their own.
use dumps::view::{check_view, view};
use replay::{Case, answer, bytes, lent};
use terms::refusal::plain;

// Whether a block is viewed as the case says: its refusal, its words, and zeros behind them.
pub(crate) fn same_view(asked: Case) -> bool {
    let Case {
        lengths,
        bytes: case,
        ..
    } = asked;
    let field = lent(asked.words, bytes::number8(case, 0));
    let other = lent(asked.reference, bytes::number8(case, 1));
    let board = bytes::number8(case, 2);
    let block = bytes::number8(case, 3);
    let checked = check_view(field, other, lengths, board, block);
    let viewed = view(field, other, lengths, board, block);
    let mut words = bytes::part(case, 8, 32).chunks_exact(4).enumerate();
    answer::same_outcome(checked, plain(bytes::number8(case, 4)))
        && viewed.len() == bytes::number8(case, 5) as usize
        && words.all(|(k, word)| bytes::number32(word, 0) == viewed.get(k).copied().unwrap_or(0))
}
