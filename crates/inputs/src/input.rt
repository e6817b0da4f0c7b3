// What a call that goes by a map checks of its input before it reads a field, in order: 1, 20, 7, then the map's.
ghost use Rattle.std.specs.Prelude.{◌≡◌};
ghost use Rattle.terms.specs.Refusal.{outcome_told};
ghost use Rattle.maps.specs.Told.{told_of};
ghost use Rattle.inputs.specs.Input.{fields_refusal, decoding_refusal};

use dumps::dump::check_dump;
use maps::map::check_map_only;
use terms::chip::MapChip;
use terms::refusal::{Refusal, check_unit};

// The check of a dump, its list of block lengths and a chip's map: 1, 20, then the map's. Good where each of the map's fields may be read.
// Kept: dump, list and map apart, here and in who calls these: a session's boards share list and map, `view` takes no map, `check_map` no dump.
#[tactic(auto, using(crate::proofs::Tells::dump_first, maps::proofs::Told::told_second), unfolding(crate::specs::Input::fields_refusal))]
pub fn check_fields(chip: MapChip, dump: &[u32], lengths: &[u8], map: &[u8]) -> Result<(), Refusal>
    ensures { result ≡ outcome_told (told_of lengths.now chip map.now (fields_refusal lengths.now chip dump.now map.now)) }
{
    check_dump(dump, lengths)?;
    check_map_only(chip, lengths, map)
}

// The same for a unit and an attenuation: 1, 20, 7, then the map's.
#[tactic(auto, using(crate::proofs::Tells::dump_first, crate::proofs::Tells::unit_first, maps::proofs::Told::told_second), unfolding(crate::specs::Input::decoding_refusal))]
pub fn check_decoding(
    chip: MapChip,
    dump: &[u32],
    lengths: &[u8],
    map: &[u8],
    unit: u8,
    atten: u8,
) -> Result<(), Refusal>
    ensures { result ≡ outcome_told (told_of lengths.now chip map.now (decoding_refusal lengths.now chip dump.now map.now unit atten)) }
{
    check_dump(dump, lengths)?;
    check_unit(unit, atten)?;
    check_map_only(chip, lengths, map)
}
