// The readings of the S2's calibration table.
ghost use Rattle.std.specs.Prelude.{◌≡◌, false, ◌≤◌, ◌<◌};
ghost use Rattle.terms.specs.Refusal.{outcome_of};
ghost use Rattle.s2_readings.specs.Chain.{field_of, chain_refusal};
ghost use Rattle.s2_readings.specs.Private.{Readable, ChainReadable};
ghost use Rattle.s2_readings.specs.Table.{entry_at};
ghost use Rattle.s2_readings.specs.Reading.{term_of, reading_of, calib_reading_of, table_refusal, table_reading_of, skipped_reading_of};

use crate::table::{RtcCalibEntry, entry_at};
use crate::tag::{RtcCalibParam, rtc_calib_tag};
use dumps::dump::{BLOCK_WORDS, DUMP_WORDS, check_dump};
use dumps::lengths::words_of;
use efuse::field::{EfuseField, check_place, value_at};
use terms::refusal;
use terms::refusal::{Refusal, check_unit, plain};
use terms::signed::sign_magnitude;

const TABLE_BLOCK: u8 = 2;

// No tag's chain has more links.
const LINKS: u8 = 4;

// An entry's field, in block 2.
fn field_of(entry: RtcCalibEntry) -> EfuseField
    ensures { result ≡ field_of entry }
{
    EfuseField {
        block: TABLE_BLOCK,
        bit_start: entry.bit_start,
        bit_count: entry.len as u16,
    }
}

// 5 where a field of a tag's chain lies outside block 2's own length.
fn check_chain(lengths: &[u8], tag: u8) -> Result<(), Refusal>
    ensures { result ≡ outcome_of (chain_refusal lengths.now tag) }
{
    let mut at = tag;
    for _ in 0..LINKS {
        let entry = entry_at(at);
        check_place(lengths, field_of(entry))?;
        at = entry.depends;
    }
    Ok(())
}

// A tag's field times its multiplier, or 0 where the eFuse is skipped.
// Kept: that the eFuse is skipped is a flag, here and below, as the definition `reading_of` has it.
fn raw(dump: &[u32], lengths: &[u8], tag: u8, skip_efuse: bool) -> i32
    requires { (skip_efuse ≡ false → Readable lengths.now dump.now (field_of (entry_at tag))) × (1 ≤ tag) × (tag < 33) }
    ensures { result ≡ term_of dump.now skip_efuse (entry_at tag) }
{
    if skip_efuse {
        return 0;
    }
    let entry = entry_at(tag);
    let code = value_at(dump, lengths, field_of(entry)) as u16;
    sign_magnitude(entry.len, code) * (entry.multiplier as i32)
}

// A tag's reading. It calls itself on the tag that this one depends on, whose rank is lower.
pub(crate) fn rtc_calib_parsed(dump: &[u32], lengths: &[u8], tag: u8, skip_efuse: bool) -> i32
    requires { (skip_efuse ≡ false → ChainReadable lengths.now dump.now tag) × (tag < 33) }
    ensures { result ≡ reading_of dump.now skip_efuse tag }
{
    if tag == 0 {
        return 0;
    }
    let entry = entry_at(tag);
    raw(dump, lengths, tag, skip_efuse)
        + (entry.base as i32)
        + rtc_calib_parsed(dump, lengths, entry.depends, skip_efuse)
}

// The check of a reading, of whose list only block 2's length is looked at: 1, 20, 7, 5.
#[tactic(auto, using(crate::proofs::Readings::table_short, crate::proofs::Readings::table_long))]
fn check_table(
    dump: &[u32],
    lengths: &[u8],
    version: u8,
    unit: u8,
    atten: u8,
    param: RtcCalibParam,
) -> Result<(), Refusal>
    ensures { result ≡ outcome_of (table_refusal lengths.now dump.now version unit atten param) }
{
    if dump.len() != DUMP_WORDS {
        return Err(plain(refusal::DUMP));
    }
    if BLOCK_WORDS < words_of(lengths, TABLE_BLOCK) as usize {
        return Err(plain(refusal::LENGTHS));
    }
    check_unit(unit, atten)?;
    check_chain(lengths, rtc_calib_tag(version, unit, atten, param))
}

// The reading of a parameter, as `rtc_calib_reading` has it, by a list that was checked: only block 2's length is looked at, so that a
// call that checks the list itself checks it once. Refusals 1, 20, 7, 5.
pub fn table_reading(
    dump: &[u32],
    lengths: &[u8],
    version: u8,
    unit: u8,
    atten: u8,
    param: RtcCalibParam,
) -> Result<i32, Refusal>
    ensures { result ≡ table_reading_of lengths.now dump.now version unit atten param }
{
    check_table(dump, lengths, version, unit, atten, param)?;
    Ok(rtc_calib_parsed(
        dump,
        lengths,
        rtc_calib_tag(version, unit, atten, param),
        false,
    ))
}

// The reading of a parameter, 0 where it doesn't pair with the version; else from 577 to 7986. Refusals 1, 20, 7, and 5 where a field that
// is read lies outside block 2's own length.
pub fn rtc_calib_reading(
    dump: &[u32],
    lengths: &[u8],
    version: u8,
    unit: u8,
    atten: u8,
    param: RtcCalibParam,
) -> Result<i32, Refusal>
    ensures { result ≡ calib_reading_of lengths.now dump.now version unit atten param }
{
    check_dump(dump, lengths)?;
    table_reading(dump, lengths, version, unit, atten, param)
}

// The same with the eFuse skipped, which takes no dump: the bases alone. Refusal 7.
pub fn rtc_calib_reading_skipped(
    version: u8,
    unit: u8,
    atten: u8,
    param: RtcCalibParam,
) -> Result<i32, Refusal>
    ensures { result ≡ skipped_reading_of version unit atten param }
{
    check_unit(unit, atten)?;
    Ok(rtc_calib_parsed(&[], &[], rtc_calib_tag(version, unit, atten, param), true))
}
