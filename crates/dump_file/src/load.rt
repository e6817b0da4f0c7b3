// Loading a dump from the bytes of its file.
ghost use Rattle.std.specs.Prelude.{◌≡◌, ◌<◌, ◌*◌, length};
ghost use Rattle.std.specs.Counts.{IsPrefixLen};
ghost use Rattle.dump_file.specs.Load.{word_at, loaded_count, loaded_into};

use dumps::dump::DUMP_WORDS;
use terms::bytes::{u16_of, u32_of};

pub const DUMP_BYTES: usize = 352;

// Word k of a dump file, low byte first.
fn word_at(bytes: &[u8], k: usize) -> u32
    requires { (length bytes.now ≡ 352) × (k < 88) }
    ensures { result ≡ word_at bytes.now k }
{
    let at = 4 * k;
    let low = u16_of(bytes[at], bytes[at + 1]);
    let high = u16_of(bytes[at + 2], bytes[at + 3]);
    u32_of(low, high)
}

// Puts the words of a dump file into the lent room of 88 words, and tells how many there are: 88, or 0 where the file has another
// length (or the room has), which leaves the room as it was. So the first that many words of the room are the dump.
// Kept: a count beside a lent room, and no slice or Option: what docs/RULES.md promises of `load_dump` is how many words there are.
#[tactic(auto, using(crate::proofs::Loads::load_all), unfolding(crate::specs::Load::loaded_count, crate::specs::Load::loaded_into))]
pub fn load_dump(bytes: &[u8], room: &mut [u32]) -> usize
    ensures answer { result ≡ loaded_count bytes.now room.old }
    ensures lent { room.new ≡ loaded_into bytes.now room.old }
    ensures counts { IsPrefixLen result room.new }
{
    if bytes.len() != DUMP_BYTES || room.len() != DUMP_WORDS {
        return 0;
    }
    for (k, word) in room.iter_mut().enumerate() {
        *word = word_at(bytes, k);
    }
    DUMP_WORDS
}
