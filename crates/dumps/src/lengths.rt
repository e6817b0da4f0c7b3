// The list of block lengths: how many words each of the eleven blocks has. It comes with every dump, and is checked with it.
ghost use Rattle.std.specs.Prelude.{◌≡◌, length};
ghost use Rattle.terms.specs.Refusal.{outcome_of};
ghost use Rattle.dumps.specs.Lengths.{words_of, lengths_refusal};
ghost use Rattle.dumps.specs.Private.{Longest};

use terms::refusal;
use terms::refusal::{Refusal, plain};

pub const BLOCKS: usize = 11;

const MOST_WORDS: u8 = 8;

// The list of a chip whose blocks all have eight words.
pub const EIGHTS: [u8; 11] = [8, 8, 8, 8, 8, 8, 8, 8, 8, 8, 8];

// How many lengths are looked at as one.
const TOGETHER: usize = 8;

// The largest of the first eight lengths: eight bytes are one look for a processor, and a list is good nearly always.
fn longest(lengths: &[u8]) -> u8
    requires { length lengths.now ≡ 11 }
    ensures { Longest lengths.now 8 result }
{
    let mut most = 0u8;
    for words in &lengths[..TOGETHER] {
        most = most.max(*words);
    }
    most
}

// Good where a list has eleven lengths of at most 8; refusal 20.
pub fn check_lengths(lengths: &[u8]) -> Result<(), Refusal>
    ensures { result ≡ outcome_of (lengths_refusal lengths.now) }
{
    if lengths.len() != BLOCKS {
        return Err(plain(refusal::LENGTHS));
    }
    if MOST_WORDS < longest(lengths) {
        return Err(plain(refusal::LENGTHS));
    }
    for words in &lengths[TOGETHER..] {
        if MOST_WORDS < *words {
            return Err(plain(refusal::LENGTHS));
        }
    }
    Ok(())
}

// A block's own length in words, by a list that was checked; none where the list hasn't that block.
pub fn words_of(lengths: &[u8], block: u8) -> u8
    ensures { result ≡ words_of lengths.now block }
{
    lengths.get(block as usize).copied().unwrap_or(0)
}
