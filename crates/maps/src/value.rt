// The value of a mapped field.
ghost use Rattle.std.specs.Prelude.{◌≡◌};
ghost use Rattle.maps.specs.Value.{record_value};

use crate::map::field_at;
use efuse::field::value_at;

// The value of record k's field, at 32 bits, by a list that was checked. Any k of any map is answered: 0 where the field can't be read,
// which is never the case for a chip's map that passed, and a whole dump.
#[tactic(auto, unfolding(crate::specs::Value::record_value))]
pub fn record_value(dump: &[u32], lengths: &[u8], map: &[u8], k: usize) -> u32
    ensures { result ≡ record_value lengths.now dump.now map.now k }
{
    value_at(dump, lengths, field_at(map, k))
}
