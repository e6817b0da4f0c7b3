// Which record of an ESP32's map is bad, and what is wrong with it, in words.
ghost use Rattle.std.specs.Prelude.{◌≡◌, ◌+◌, ◌≤◌, length};
ghost use Rattle.terms.specs.Put.{Put};
ghost use Rattle.words.specs.Put.{decimal, put_past, put_into};
ghost use Rattle.bad_record.specs.Told.{id_of, place_of, wrong_id, wrong_byte, wrong_of, bad_text};

use terms::refusal;
use terms::refusal::Refusal;
use words::put::{has_room, put_decimal, put_word};

// The most bytes of those words: 51 for the record, 60 for what is wrong.
pub const BAD_BYTES: usize = 111;

// The name of the id that a record of an ESP32's map has.
// Kept: here and below, lent bytes and a place, and no struct of both: each text asks for a room of its own, and `put_word` takes them so.
fn put_id(out: &mut [u8], at: usize, k: u8) -> usize
    requires { at + 17 ≤ length out.old }
    ensures { Put out.old at (id_of k) result out.new × (result ≤ at + 17) }
{
    match k {
        0 => put_word(out, at, b"ADC_VREF"),
        1 => put_word(out, at, b"BLK3_PART_RESERVE"),
        2 => put_word(out, at, b"ADC1_TP_LOW"),
        3 => put_word(out, at, b"ADC2_TP_LOW"),
        4 => put_word(out, at, b"ADC1_TP_HIGH"),
        _ => put_word(out, at, b"ADC2_TP_HIGH"),
    }
}

// Which record of the map it is.
fn put_place(out: &mut [u8], at: usize, k: u8) -> usize
    requires { at + 51 ≤ length out.old }
    ensures { Put out.old at (place_of k) result out.new × (result ≤ at + 51) }
{
    let next = put_word(out, at, b": record ");
    let next = put_decimal(out, next, k as u64);
    let next = put_word(out, next, b" (");
    let next = put_id(out, next, k);
    put_word(out, next, b"): ")
}

// A record whose id isn't the one that its place asks for, from 1 on.
fn put_wrong_id(out: &mut [u8], at: usize, k: u8) -> usize
    requires { at + 33 ≤ length out.old }
    ensures { Put out.old at (wrong_id k) result out.new × (result ≤ at + 33) }
{
    let next = put_word(out, at, b"its id isn't ");
    put_decimal(out, next, k as u64 + 1)
}

// A byte that should be zero.
fn put_wrong_byte(out: &mut [u8], at: usize, place: u8) -> usize
    requires { at + 36 ≤ length out.old }
    ensures { Put out.old at (wrong_byte place) result out.new × (result ≤ at + 36) }
{
    let next = put_word(out, at, b"byte ");
    let next = put_decimal(out, next, place as u64);
    put_word(out, next, b" isn't zero")
}

// What is wrong with a record of the map.
fn put_wrong(out: &mut [u8], at: usize, why: Refusal) -> usize
    requires { at + 60 ≤ length out.old }
    ensures { Put out.old at (wrong_of why) result out.new × (result ≤ at + 60) }
{
    match why.number {
        refusal::MAP_ID => put_wrong_id(out, at, why.record),
        refusal::MAP_BYTE => put_wrong_byte(out, at, why.place),
        refusal::BLOCK => put_word(out, at, b"its block is above 10"),
        refusal::BIT_RANGE => put_word(
            out,
            at,
            b"its bit start is above 255, or its block is too short for it",
        ),
        _ => put_word(out, at, b"its bit count isn't its id's"),
    }
}

// The words for a refusal of a record, at a place with room for them.
fn put_whole(out: &mut [u8], at: usize, why: Refusal) -> usize
    requires { at + 111 ≤ length out.old }
    ensures { Put out.old at (bad_text why) result out.new × (result ≤ at + 111) }
{
    let next = put_place(out, at, why.record);
    put_wrong(out, next, why)
}

// Puts the words for a refusal of a record at a place, and answers the place past them; where there is no room for 111 bytes, it puts
// nothing.
// Kept: a place in lent bytes, and no writer: what docs/RULES.md promises of `put_bad_record` is the place past the words, or none written.
#[tactic(auto, unfolding(words::specs::Put::put_past, words::specs::Put::put_into))]
pub fn put_bad_record(out: &mut [u8], at: usize, why: Refusal) -> usize
    ensures past { result ≡ put_past 111 out.old at (bad_text why) }
    ensures text { out.new ≡ put_into 111 out.old at (bad_text why) }
    ensures short { result ≤ at + 111 }
    ensures put { at + 111 ≤ length out.old → Put out.old at (bad_text why) result out.new }
{
    if has_room(out.len(), at, BAD_BYTES) {
        return put_whole(out, at, why);
    }
    at
}
