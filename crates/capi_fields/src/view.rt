// The session view.
ghost use Rattle.std.specs.Prelude.{◌≡◌};
ghost use Rattle.dumps.specs.View.{board_dump, part_of, view_of};
ghost use Rattle.capi_fields.specs.View.{view_c};

use capi::answer::SkvRefusal;
use dumps::lengths::words_of;
use dumps::view;
use terms::refusal;
use terms::refusal::plain;

const BLOCK_WORDS: u32 = 8;

// A part of a board's dump: its first word, and how many there are.
#[repr(C)]
#[derive(Clone, Copy, Debug, PartialEq, Eq)]
pub struct SkvView {
    pub refusal: SkvRefusal,
    pub board: u8,
    pub first: u32,
    pub words: u32,
}

// Where a block's words stand: in which board's dump, from which word on, and how many. Refusals 15, 1, 20, 4, which hand back the empty
// start of the field dump. `part` says that this is the library's view, no copy.
#[unsafe(no_mangle)]
pub extern "C" fn skv_view<'a>(
    field: &'a [u32],
    reference: &'a [u32],
    lengths: &[u8],
    board: u8,
    block: u8,
) -> SkvView
    ensures answer { result ≡ view_c lengths.now field.entry reference.entry board block }
    ensures part { view_of lengths.now field.entry reference.entry board block ≡ part_of (board_dump field.entry reference.entry result.board) result.first result.words }
{
    match view::check_view(field, reference, lengths, board, block) {
        Ok(()) => SkvView {
            refusal: plain(refusal::NONE).into(),
            board,
            first: BLOCK_WORDS * (block as u32),
            words: words_of(lengths, block) as u32,
        },
        Err(why) => SkvView {
            refusal: why.into(),
            board: 0,
            first: 0,
            words: 0,
        },
    }
}
