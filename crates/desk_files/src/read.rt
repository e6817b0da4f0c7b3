// The boards' dumps, their list of block lengths and their map, by the files' names. A missing file counts as empty, but for the list, where
// it means eleven eights; one that can't be read is told with the system's reason.
ghost use Rattle.std.specs.Prelude.{◌≡◌, IfOk, IfSome};
ghost use Rattle.std.specs.Counts.{IsPrefixLen};
ghost use Rattle.desk_files.specs.Read.{list_of};

use dump_file::load::load_dump;
use dumps::lengths::BLOCKS;
use fault_words::told::put_fault;
use faults::fault::File;
use files::load::{Unread, load};
use files::write::write_all;
use std::io::Write;
use std::rt::Files;

// Eleven eights, in the room for a list.
const NO_FILE: [u8; 12] = [8, 8, 8, 8, 8, 8, 8, 8, 8, 8, 8, 0];

// A dump file: room for its words, and how many stand there.
// Kept: a length beside a room, here and below: an ArrayVec isn't Copy, as these are.
#[derive(Clone, Copy)]
pub struct Dump {
    pub words: [u32; 88],
    pub len: usize,
}

// The map, likewise, by its bytes.
#[derive(Clone, Copy)]
pub struct Map {
    pub bytes: [u8; 49],
    pub len: usize,
}

// The list of block lengths, likewise: room for one more than it has, so that a longer file is seen to be one.
#[derive(Clone, Copy)]
pub struct Lengths {
    pub bytes: [u8; 12],
    pub len: usize,
}

// What is told of a file that can't be read, before the system's reason.
pub(crate) fn unread(file: File) -> &'static [u8] {
    match file {
        File::Field => b"field.bin: it can't be read, so the desk stops here",
        File::Reference => b"reference.bin: it can't be read, so the desk stops here",
        File::Lengths => b"lengths.bin: it can't be read, so the desk stops here",
        File::Map => b"map.bin: it can't be read, so the desk stops here",
        File::Samples => b"samples.bin: it can't be read, so the desk stops here",
    }
}

// Tells what is wrong with a file, by its bytes; with the map, by the list of block lengths.
// Kept: a length beside lent bytes: `put_fault`, as docs/RULES.md promises it, puts its line at the start of a room and tells its length.
pub(crate) fn tell<W: Write>(errors: &mut W, file: File, lengths: &[u8], bytes: Option<&[u8]>) {
    let mut line = [0u8; 160];
    let len = put_fault(&mut line, file, lengths, bytes);
    // where even this can't be written, nobody is left to be told
    let _ = write_all(errors, &line[..len]);
}

// Reads a file's bytes, as many as there is room for, and tells what is wrong with them. `None` is a name that no file has.
fn read_bytes<R: Files, W: Write>(
    rt: &R,
    path: &[u8],
    file: File,
    lengths: &[u8],
    room: &mut [u8],
    errors: &mut W,
) -> Result<Option<usize>, Unread>
    ensures { IfOk result (λ found. IfSome found (λ len. IsPrefixLen len room.new)) }
{
    let Some(len) = load(rt, path, room, unread(file), errors)? else {
        tell(errors, file, lengths, None);
        return Ok(None);
    };
    tell(errors, file, lengths, Some(&room[..len]));
    Ok(Some(len))
}

// Reads a dump file's words; there are none where it has another length than a dump's, or there is no such file.
fn read_dump<R: Files, W: Write>(
    rt: &R,
    path: &[u8],
    file: File,
    errors: &mut W,
) -> Result<Dump, Unread>
    ensures { IfOk result (λ dump. IsPrefixLen dump.len dump.words) }
{
    // one byte more than a dump file has, so that a longer one is seen to be one; likewise with the list and the map
    let mut bytes = [0u8; 353];
    let read = read_bytes(rt, path, file, b"", &mut bytes, errors)?.unwrap_or(0);
    let mut words = [0u32; 88];
    let len = load_dump(&bytes[..read], &mut words);
    Ok(Dump { words, len })
}

// Reads the field board's dump.
// Kept: two calls over one body; one for both would take any `File`, those too that are no dump.
pub fn read_field<R: Files, W: Write>(rt: &R, path: &[u8], errors: &mut W) -> Result<Dump, Unread>
    ensures { IfOk result (λ dump. IsPrefixLen dump.len dump.words) }
{
    read_dump(rt, path, File::Field, errors)
}

// Reads the reference board's dump.
pub fn read_reference<R: Files, W: Write>(
    rt: &R,
    path: &[u8],
    errors: &mut W,
) -> Result<Dump, Unread>
    ensures { IfOk result (λ dump. IsPrefixLen dump.len dump.words) }
{
    read_dump(rt, path, File::Reference, errors)
}

// What is gone by: as many bytes of the room as the file gave, or eleven eights where there is no such file.
fn list_of(bytes: [u8; 12], found: Option<usize>) -> Lengths
    ensures { result ≡ list_of bytes found }
{
    match found {
        Some(len) => Lengths { bytes, len },
        None => Lengths {
            bytes: NO_FILE,
            len: BLOCKS,
        },
    }
}

// Reads the list of block lengths.
#[tactic(auto, using(crate::proofs::Lists::list_counts))]
pub fn read_lengths<R: Files, W: Write>(
    rt: &R,
    path: &[u8],
    errors: &mut W,
) -> Result<Lengths, Unread>
    ensures { IfOk result (λ list. IsPrefixLen list.len list.bytes) }
{
    let mut bytes = [0u8; 12];
    let found = read_bytes(rt, path, File::Lengths, b"", &mut bytes, errors)?;
    Ok(list_of(bytes, found))
}

// Reads the map, which goes by that list.
pub fn read_map<R: Files, W: Write>(
    rt: &R,
    path: &[u8],
    lengths: &[u8],
    errors: &mut W,
) -> Result<Map, Unread>
    ensures { IfOk result (λ map. IsPrefixLen map.len map.bytes) }
{
    let mut bytes = [0u8; 49];
    let len = read_bytes(rt, path, File::Map, lengths, &mut bytes, errors)?.unwrap_or(0);
    Ok(Map { bytes, len })
}
