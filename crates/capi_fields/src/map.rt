// Field maps.
ghost use Rattle.std.specs.Prelude.{◌≡◌};
ghost use Rattle.terms.specs.Refusal.{outcome_of};
ghost use Rattle.capi_fields.specs.Map.{no_map, map_c};

use capi::answer::SkvOutcome;
use dumps::lengths::check_lengths;
use maps::map;
use terms::chip::MapChip;
use terms::refusal;
use terms::refusal::{Refusal, plain};

// What is wrong where the chip has no map: 20, 2.
#[tactic(auto, unfolding(crate::specs::Map::no_map))]
fn check_no_map(lengths: &[u8]) -> Result<(), Refusal>
    ensures { result ≡ outcome_of (no_map lengths.now) }
{
    check_lengths(lengths)?;
    Err(plain(refusal::MAP))
}

// Good where the map is its chip's. Refusals 20, 2, then records first to last with 3, 18, 4, 5, 6 within each. No map is that of a chip
// other than ESP32 (0), S2 (1) and C6 (4): then 20, 2.
#[tactic(auto, unfolding(crate::specs::Map::chip_check))]
#[unsafe(no_mangle)]
pub extern "C" fn skv_check_map(chip: u8, lengths: &[u8], map: &[u8]) -> SkvOutcome
    ensures { result ≡ map_c lengths.now chip map.now }
{
    let chip = match chip {
        0 => MapChip::Esp32,
        1 => MapChip::S2,
        4 => MapChip::C6,
        _ => return check_no_map(lengths).into(),
    };
    map::check_map(chip, lengths, map).into()
}
