// The words for what is wrong with a file.
ghost use Rattle.std.specs.Prelude.{◌≡◌, ◌+◌, ◌≤◌, length, option_copied};
ghost use Rattle.std.specs.Counts.{IsPrefixLen};
ghost use Rattle.terms.specs.Put.{Put};
ghost use Rattle.faults.specs.Fault.{fault_of};
ghost use Rattle.fault_words.specs.Told.{name_of, words_of, long_of, end_of, number_of, fault_text};

use bad_record::told::put_bad_record;
use faults::fault::{Fault, File, fault_of};
use terms::refusal;
use terms::refusal::Refusal;
use words::put::{put_decimal, put_word};

// The name of a file.
fn put_name(out: &mut [u8], file: File) -> usize
    requires { 13 ≤ length out.old }
    ensures { Put out.old 0 (name_of file) result out.new × (result ≤ 13) }
{
    match file {
        File::Field => put_word(out, 0, b"field.bin"),
        File::Reference => put_word(out, 0, b"reference.bin"),
        File::Lengths => put_word(out, 0, b"lengths.bin"),
        File::Map => put_word(out, 0, b"map.bin"),
        File::Samples => put_word(out, 0, b"samples.bin"),
    }
}

// Why a file is turned down: a dump with 1, a map with 2 or for a record, a list of block lengths with 20.
// Kept: here and below, lent bytes and a place, and no struct of both: each text asks for a room of its own, and `put_word` takes them so.
fn put_words(out: &mut [u8], at: usize, why: Refusal) -> usize
    requires { at + 111 ≤ length out.old }
    ensures { Put out.old at (words_of why) result out.new × (result ≤ at + 111) }
{
    match why.number {
        refusal::DUMP => put_word(out, at, b": a dump has 352 bytes, and this file hasn't"),
        refusal::MAP => put_word(
            out,
            at,
            b": an ESP32's map has 48 bytes, and this file hasn't",
        ),
        refusal::LENGTHS => put_word(
            out,
            at,
            b": a list of block lengths has 11 bytes, and this file hasn't",
        ),
        _ => put_bad_record(out, at, why),
    }
}

// Which length of a list is too long, at a place with room for it.
fn put_long(out: &mut [u8], at: usize, block: u8) -> usize
    requires { at + 111 ≤ length out.old }
    ensures { Put out.old at (long_of block) result out.new × (result ≤ at + 111) }
{
    let next = put_word(out, at, b": byte ");
    let next = put_decimal(out, next, block as u64);
    put_word(out, next, b" is above 8, the most words that a block has")
}

// How a line ends: with the number of the refusal that lines will have, in brackets, where there is one.
// Kept: a number, and `NONE` for none: `end_of`, which `fault_text` is made of, goes by it, also of a refusal with number 0.
fn put_end(out: &mut [u8], at: usize, number: u8) -> usize
    requires { at + 32 ≤ length out.old }
    ensures { Put out.old at (end_of number) result out.new }
{
    if number == refusal::NONE {
        return put_word(out, at, b"\n");
    }
    let next = put_word(out, at, b" (refusal ");
    let next = put_decimal(out, next, number as u64);
    put_word(out, next, b")\n")
}

// A refusal's number, `NONE` where there is none.
fn number_of(why: Option<Refusal>) -> u8
    ensures { result ≡ number_of why }
{
    why.map_or(refusal::NONE, |why| why.number)
}

// A fault's line, of at most 160 bytes; of none there is no line.
#[tactic(auto, using(terms::proofs::Puts::put_none, terms::proofs::Puts::put_more), unfolding(crate::specs::Told::fault_text))]
fn put_line(out: &mut [u8], file: File, fault: Option<Fault>) -> usize
    requires { 160 ≤ length out.old }
    ensures { Put out.old 0 (fault_text file fault) result out.new }
{
    let Some(fault) = fault else {
        return 0;
    };
    let next = put_name(out, file);
    match fault {
        Fault::Missing(empty) => {
            let next = put_word(out, next, b": there is no such file, so it counts as empty");
            put_end(out, next, number_of(empty))
        }
        Fault::Refused(why) => {
            let next = put_words(out, next, why);
            put_end(out, next, why.number)
        }
        Fault::TooLong(block) => {
            let next = put_long(out, next, block);
            put_end(out, next, refusal::LENGTHS)
        }
    }
}

// Puts the line of what is wrong with a file at the start of the lent bytes, and tells its length: 0 where nothing is. There is always
// room for it. The file is given by its bytes, or as `None` where there is no such file; the list of block lengths is the one that the map
// is gone by.
// Kept: a length beside lent bytes, and no String: what docs/RULES.md promises of `put_fault` is that, and a String wants an allocator.
pub fn put_fault(out: &mut [u8; 160], file: File, lengths: &[u8], bytes: Option<&[u8]>) -> usize
    ensures line { Put out.old 0 (fault_text file (fault_of file lengths.now (option_copied bytes.entry))) result out.new }
    ensures counts { IsPrefixLen result out.new }
{
    put_line(out, file, fault_of(file, lengths, bytes))
}
