// data/maps and data/short_maps: field maps, with the first thing wrong with each, and in which record. A case starts from one of
// data/good_maps and changes two of its bytes.
use maps::map;
use replay::{Case, answer, bytes};
use terms::chip::MapChip;

// What data/good_maps has of a map: its chip, and the map from a place on.
const GOOD: usize = 128;

const GOOD_MAP: usize = 8;

// Kept: no TryFrom: the numbers are data/good_maps' own (`numbered` has 4 for a C6), which has 0, 1 and 2 alone: there is none to turn down.
fn chip_of(number: u8) -> MapChip {
    match number {
        0 => MapChip::Esp32,
        1 => MapChip::S2,
        _ => MapChip::C6,
    }
}

// Whether a map is checked as the case says. A change is a byte's place, and the byte that is put there.
pub(crate) fn same_map(good_maps: &[u8], asked: Case) -> bool {
    let case = asked.bytes;
    let good = bytes::part(good_maps, GOOD * (bytes::number8(case, 0) as usize), GOOD);
    let mut map = [0u8; 128];
    bytes::put(&mut map, 0, bytes::part(good, GOOD_MAP, GOOD));
    for change in bytes::part(case, 2, 4).chunks_exact(2) {
        bytes::put(&mut map, bytes::number8(change, 0) as usize, &change[1..]);
    }
    let map = bytes::part(&map, 0, bytes::number8(case, 1) as usize);
    let got = map::check_map(chip_of(bytes::number8(good, 0)), asked.lengths, map);
    answer::same_outcome(got, answer::told(case, 6, 7))
}
