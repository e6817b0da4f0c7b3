// A dump: the words of an eFuse, with room for eight in each of the blocks 0 to 10, and what every call that takes one checks of it and
// of its list of block lengths.
ghost use Rattle.std.specs.Prelude.{◌≡◌};
ghost use Rattle.terms.specs.Refusal.{outcome_of};
ghost use Rattle.dumps.specs.Dump.{dump_refusal};

use crate::lengths::check_lengths;
use terms::refusal;
use terms::refusal::{Refusal, plain};

pub const DUMP_WORDS: usize = 88;

pub const LAST_BLOCK: u8 = 10;

pub const BLOCK_WORDS: usize = 8;

// Good where a dump is whole and its list is good; refusals 1, 20.
#[tactic(auto, unfolding(crate::specs::Dump::dump_refusal))]
pub fn check_dump(dump: &[u32], lengths: &[u8]) -> Result<(), Refusal>
    ensures { result ≡ outcome_of (dump_refusal lengths.now dump.now) }
{
    if dump.len() != DUMP_WORDS {
        return Err(plain(refusal::DUMP));
    }
    check_lengths(lengths)
}
