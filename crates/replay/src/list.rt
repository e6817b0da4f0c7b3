// The cases of a list, one after the other.
ghost use Rattle.std.specs.Prelude.{◌≡◌};
ghost use Rattle.replay.specs.declared.list.Lengths.TheVariants.{Eights, Own};

use crate::bytes::{number8, number32, part};
use files::read::read_full;
use std::io::Read;

const DUMP_BYTES: usize = 352;

// The most words that a case lends: a dump's, and zeros behind them.
const WORDS: usize = 96;

// The most bytes of a case: those of a whole table.
const MOST: usize = 8208;

// Where block lengths end, in a case that begins with them: how many there are, the lengths, then zeros.
const LENGTHS: usize = 16;

// The list of a chip whose blocks have eight words each.
const EIGHTS: [u8; 11] = [8; 11];

// The dumps of a list that has any: one before each so many cases; or two, of a field board and a reference board.
#[derive(Clone, Copy)]
pub enum Dumps {
    Each(u64),
    Pairs(u64),
}

// The block lengths that cases are asked with: eleven eights, or those that each case begins with.
#[derive(Clone, Copy)]
enum Lengths {
    Eights,
    Own,
}

// How a list is laid out: the bytes of a case, and what stands before it.
#[derive(Clone, Copy)]
pub struct Layout {
    case: usize,
    dumps: Option<Dumps>,
    lengths: Lengths,
}

impl Layout {
    // Cases of so many bytes, asked with eleven eights.
    pub fn eights(case: usize, dumps: Option<Dumps>) -> Layout
        ensures { result ≡ record { case = case; dumps = dumps; lengths = Eights } }
    {
        Layout {
            case,
            dumps,
            lengths: Lengths::Eights,
        }
    }

    // Cases of so many bytes, which begin with block lengths of their own.
    pub fn own(case: usize, dumps: Option<Dumps>) -> Layout
        ensures { result ≡ record { case = case; dumps = dumps; lengths = Own } }
    {
        Layout {
            case,
            dumps,
            lengths: Lengths::Own,
        }
    }
}

// A case: the words of the dump before it, with zeros behind them, and those of the reference board where dumps come in pairs; the block
// lengths; and the bytes behind these.
#[derive(Clone, Copy)]
pub struct Case<'a> {
    pub words: &'a [u32],
    pub reference: &'a [u32],
    pub lengths: &'a [u8],
    pub bytes: &'a [u8],
}

// Room for a list's case that was read last, and for the dumps before it.
#[derive(Drop)]
pub(crate) struct Room {
    layout: Layout,
    words: [u32; WORDS],
    reference: [u32; WORDS],
    bytes: [u8; MOST],
}

impl Room {
    pub(crate) fn new(layout: Layout) -> Room {
        Room {
            layout,
            words: [0; WORDS],
            reference: [0; WORDS],
            bytes: [0; MOST],
        }
    }

    // Reads the case of a number, from 0, and before it the dumps that are due; tells whether there was a whole case. A list ends with its
    // last one.
    pub(crate) fn read_case<F: Read>(&mut self, list: &mut F, number: u64) -> bool {
        let layout = self.layout;
        match layout.dumps {
            Some(Dumps::Each(cases)) if is_due(number, cases) => read_dump(list, &mut self.words),
            Some(Dumps::Pairs(cases)) if is_due(number, cases) => {
                read_dump(list, &mut self.words);
                read_dump(list, &mut self.reference);
            }
            _ => {}
        }
        let most = layout.case.min(MOST);
        read_full(list, &mut self.bytes[..most]).is_ok_and(|read| read == layout.case)
    }

    // The case that was read.
    pub(crate) fn case(&self) -> Case<'_> {
        let layout = self.layout;
        let bytes = part(&self.bytes, 0, layout.case);
        let (lengths, bytes) = match layout.lengths {
            Lengths::Eights => (&EIGHTS[..], bytes),
            Lengths::Own => (
                part(bytes, 1, number8(bytes, 0) as usize),
                part(bytes, LENGTHS, bytes.len()),
            ),
        };
        Case {
            words: &self.words,
            reference: &self.reference,
            lengths,
            bytes,
        }
    }
}

// Whether a dump stands before the case of a number, where one stands before each so many.
fn is_due(number: u64, cases: u64) -> bool {
    number.checked_rem(cases) == Some(0)
}

// Reads a dump, each word low byte first. Bytes that the list hasn't count as 0.
fn read_dump<F: Read>(list: &mut F, words: &mut [u32; WORDS]) {
    let mut bytes = [0u8; DUMP_BYTES];
    let _ = read_full(list, &mut bytes);
    for (word, bytes) in words.iter_mut().zip(bytes.chunks_exact(4)) {
        *word = number32(bytes, 0);
    }
}
