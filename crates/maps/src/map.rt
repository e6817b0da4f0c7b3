// Field maps: which field of the dump has which id, in records of 8 bytes.
ghost use Rattle.std.specs.Prelude.{◌≡◌, cond, ◌+◌, ◌*◌, ◌≤◌, ◌<◌, eqb, get_or};
ghost use Rattle.terms.specs.Refusal.{first_of, outcome_told, outcome_of};
ghost use Rattle.maps.specs.Map.{ids_of, record_byte, field_of, stray_of, exactly, bit_counts, count_refusal, map_record_refusal, map_record_refusals, map_refusal, check_refusal};
ghost use Rattle.maps.specs.Told.{told_from, told_of};

use dumps::lengths::check_lengths;
use efuse::field::{EfuseField, check_place};
use terms::bytes::u16_of;
use terms::chip::MapChip;
use terms::refusal;
use terms::refusal::{Refusal, plain};

const RECORD_BYTES: usize = 8;

// Ids that rise from a first one on.
#[derive(Clone, Copy)]
pub(crate) struct Ids {
    pub(crate) first: usize,
    pub(crate) len: usize,
}

// The least and the largest bit count that a field may have.
#[derive(Clone, Copy)]
pub(crate) struct BitCounts {
    pub(crate) min: u16,
    pub(crate) max: u16,
}

// Document 01's column "Bit count", by id from 1 on. As a `match` it is constant data, while a constant array would be made anew at each
// use.
fn bit_counts(k: usize) -> BitCounts
    requires { k < 23 }
    ensures { (result.min ≡ (get_or bit_counts k (exactly 0)).min) × (result.max ≡ (get_or bit_counts k (exactly 0)).max) }
{
    match k {
        0 => BitCounts { min: 5, max: 5 }, // ADC_VREF
        1 => BitCounts { min: 1, max: 1 }, // BLK3_PART_RESERVE
        2 => BitCounts { min: 7, max: 7 }, // ADC1_TP_LOW
        3 => BitCounts { min: 7, max: 7 }, // ADC2_TP_LOW
        4 => BitCounts { min: 9, max: 9 }, // ADC1_TP_HIGH
        5 => BitCounts { min: 9, max: 9 }, // ADC2_TP_HIGH
        6 => BitCounts { min: 1, max: 8 }, // BLK_VERSION_MINOR
        7 => BitCounts { min: 1, max: 8 }, // SPI_BOOT_CRYPT_CNT
        8 => BitCounts { min: 1, max: 15 }, // ADC1_INIT_CODE_ATTEN0
        9 => BitCounts { min: 1, max: 15 }, // ADC1_INIT_CODE_ATTEN1
        10 => BitCounts { min: 1, max: 15 }, // ADC1_INIT_CODE_ATTEN2
        11 => BitCounts { min: 1, max: 15 }, // ADC1_INIT_CODE_ATTEN3
        12 => BitCounts { min: 10, max: 10 }, // ADC1_CAL_VOL_ATTEN0
        13 => BitCounts { min: 10, max: 10 }, // ADC1_CAL_VOL_ATTEN1
        14 => BitCounts { min: 10, max: 10 }, // ADC1_CAL_VOL_ATTEN2
        15 => BitCounts { min: 10, max: 10 }, // ADC1_CAL_VOL_ATTEN3
        16 => BitCounts { min: 4, max: 4 }, // ADC1_INIT_CODE_ATTEN0_CH0
        17 => BitCounts { min: 4, max: 4 }, // ADC1_INIT_CODE_ATTEN0_CH1
        18 => BitCounts { min: 4, max: 4 }, // ADC1_INIT_CODE_ATTEN0_CH2
        19 => BitCounts { min: 4, max: 4 }, // ADC1_INIT_CODE_ATTEN0_CH3
        20 => BitCounts { min: 4, max: 4 }, // ADC1_INIT_CODE_ATTEN0_CH4
        21 => BitCounts { min: 4, max: 4 }, // ADC1_INIT_CODE_ATTEN0_CH5
        22 => BitCounts { min: 4, max: 4 }, // ADC1_INIT_CODE_ATTEN0_CH6
        _ => BitCounts { min: 0, max: 0 },
    }
}

// A chip's ids: the first, and how many there are.
fn ids_of(chip: MapChip) -> Ids
    ensures { result ≡ ids_of chip }
{
    match chip {
        MapChip::Esp32 => Ids { first: 1, len: 6 },
        MapChip::S2 => Ids { first: 7, len: 2 },
        MapChip::C6 => Ids { first: 9, len: 15 },
    }
}

// Byte i of record k; 0 past the map's end. That k is a whole record is tested first, so that a record's eight bytes need the test once.
fn record_byte(map: &[u8], k: usize, i: usize) -> u8
    requires { i < 8 }
    ensures { result ≡ record_byte map.now k i }
{
    let whole = map.len() / RECORD_BYTES;
    if k < whole {
        return map[RECORD_BYTES * k + i];
    }
    if whole < k {
        return 0;
    }
    let at = RECORD_BYTES * k + i;
    if map.len() <= at {
        return 0;
    }
    map[at]
}

// The field of record k; bytes past the map's end count as zero. No public call: whoever goes by a map checks it first, or reads
// through `record_value`.
pub(crate) fn field_at(map: &[u8], k: usize) -> EfuseField
    ensures { result ≡ field_of map.now k }
{
    EfuseField {
        block: record_byte(map, k, 1),
        bit_start: u16_of(record_byte(map, k, 2), record_byte(map, k, 3)),
        bit_count: record_byte(map, k, 4) as u16,
    }
}

// The place of the first nonzero byte among a record's last three, or 0.
// Kept: 0 and not `None`, since a refusal tells that number as its place, as the definition `stray_of` has it.
fn stray(map: &[u8], k: usize) -> u8
    ensures { result ≡ stray_of map.now k }
{
    if record_byte(map, k, 5) != 0 {
        return 5;
    }
    if record_byte(map, k, 6) != 0 {
        return 6;
    }
    if record_byte(map, k, 7) != 0 {
        return 7;
    }
    0
}

// Good where record k is, which should have that id; refusals 3, 18, 4, 5, 6, by their numbers alone.
#[tactic(auto, using(crate::proofs::Maps::record_id, crate::proofs::Maps::record_stray, crate::proofs::Maps::place_refused, crate::proofs::Maps::count_decides))]
fn check_record(lengths: &[u8], map: &[u8], id: usize, k: usize) -> Result<(), Refusal>
    requires { (1 ≤ id) × (id ≤ 23) }
    ensures { result ≡ outcome_of (map_record_refusal lengths.now map.now id k) }
{
    if record_byte(map, k, 0) as usize != id {
        return Err(plain(refusal::MAP_ID));
    }
    if stray(map, k) != 0 {
        return Err(plain(refusal::MAP_BYTE));
    }
    let field = field_at(map, k);
    check_place(lengths, field)?;
    check_count(id, field.bit_count)
}

// Good where a field with that id may have that bit count; refusal 6.
#[tactic(auto, unfolding(crate::specs::Map::count_refusal))]
fn check_count(id: usize, count: u16) -> Result<(), Refusal>
    requires { (1 ≤ id) × (id ≤ 23) }
    ensures { result ≡ outcome_of (count_refusal id count) }
{
    let counts = bit_counts(id - 1);
    if count < counts.min {
        return Err(plain(refusal::BIT_COUNT));
    }
    if counts.max < count {
        return Err(plain(refusal::BIT_COUNT));
    }
    Ok(())
}

// The place that record k tells with its number: at 18 that of its first nonzero byte, else 0.
#[tactic(auto, using(crate::proofs::Told::place_byte))]
fn told_place(map: &[u8], k: usize, number: u8) -> u8
    ensures { result ≡ cond (eqb number 18) (stray_of map.now k) 0 }
{
    if number == refusal::MAP_BYTE {
        return stray(map, k);
    }
    0
}

// Good where the first n records are, whose ids should rise from the first one on; else the first thing wrong, and which record it is in.
#[tactic(auto, using(terms::proofs::Refusals::first_start, crate::proofs::Told::told_end))]
fn check_records(lengths: &[u8], map: &[u8], first: usize, n: usize) -> Result<(), Refusal>
    requires { (1 ≤ first) × (first + n ≤ 24) }
    ensures { result ≡ outcome_told (told_from lengths.now map.now first n (first_of (map_record_refusals lengths.now map.now first) 0 n)) }
{
    for k in 0..n {
        if let Err(why) = check_record(lengths, map, first + k, k) {
            return refusal::outcome_of(Refusal {
                number: why.number,
                record: k as u8,
                place: told_place(map, k, why.number),
            });
        }
    }
    Ok(())
}

// The check of a map by a list of block lengths that was checked: 2, then its records first to last.
#[tactic(auto, using(crate::proofs::Maps::ids_in_table, crate::proofs::Maps::map_length, crate::proofs::Maps::map_records), unfolding(crate::specs::Told::told_of))]
pub fn check_map_only(chip: MapChip, lengths: &[u8], map: &[u8]) -> Result<(), Refusal>
    ensures { result ≡ outcome_told (told_of lengths.now chip map.now (map_refusal lengths.now chip map.now)) }
{
    let ids = ids_of(chip);
    let first = ids.first;
    let n = ids.len;
    if map.len() != RECORD_BYTES * n {
        return Err(plain(refusal::MAP));
    }
    check_records(lengths, map, first, n)
}

// Good where the list is one and the map its chip's: then each of its fields is read without refusal. Else the first thing wrong: 20, 2,
// then records first to last with 3, 18, 4, 5, 6 within each, and which record it is in.
#[tactic(auto, using(crate::proofs::Told::lengths_first, crate::proofs::Told::told_second), unfolding(crate::specs::Map::check_refusal))]
pub fn check_map(chip: MapChip, lengths: &[u8], map: &[u8]) -> Result<(), Refusal>
    ensures { result ≡ outcome_told (told_of lengths.now chip map.now (check_refusal lengths.now chip map.now)) }
{
    check_lengths(lengths)?;
    check_map_only(chip, lengths, map)
}
