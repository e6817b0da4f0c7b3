// Reading a file by its name. `Ok(None)` is a name that no file has.
ghost use Rattle.std.specs.Prelude.{IfOk, IfSome};
ghost use Rattle.std.specs.Counts.{IsPrefixLen};
ghost use Rattle.std.specs.Io.{ReadsAtMost};

use crate::read::read_full;
use crate::told;
use std::fs;
use std::io::{Error, ErrorKind, Read, Write};
use std::rt::Files;

// A file that is there and couldn't be read, which has been told.
#[derive(Clone, Copy, Debug, PartialEq, Eq)]
pub struct Unread;

// Opens a file for reading. A name is text for std, and no other opens anything.
// Kept: a name is bytes, here, in open and in load: each answers any bytes, and a &str would ask more of callers.
pub fn open_named<R: Files>(rt: &R, path: &[u8]) -> Result<R::File, Error> {
    let path = std::str::from_utf8(path).map_err(|_| Error::from(ErrorKind::InvalidInput))?;
    fs::open(rt, path)
}

// Tells a file that can't be read: `unread`, and the system's reason.
fn tell_unread<W: Write>(error: &Error, unread: &[u8], errors: &mut W) -> Unread {
    told::tell(errors, unread, error);
    Unread
}

// Opens a file. One that is there and can't be opened is told: `unread`, and the system's reason.
pub fn open<R: Files, W: Write>(
    rt: &R,
    path: &[u8],
    unread: &[u8],
    errors: &mut W,
) -> Result<Option<R::File>, Unread> {
    match open_named(rt, path) {
        Ok(file) => Ok(Some(file)),
        Err(error) if error.kind() == ErrorKind::NotFound => Ok(None),
        Err(error) => Err(tell_unread(&error, unread, errors)),
    }
}

// Reads on, up to the end or till the room is full. A read that fails is told likewise, and then nothing counts as read.
fn read_told<F: Read, W: Write>(
    file: &mut F,
    room: &mut [u8],
    unread: &[u8],
    errors: &mut W,
) -> Result<usize, Unread>
    ensures { ReadsAtMost result room.new }
{
    read_full(file, room).map_err(|torn| tell_unread(&torn.error, unread, errors))
}

// Reads a file from its start, and answers how many bytes of the room it fills. One that can't be read is told likewise.
pub fn load<R: Files, W: Write>(
    rt: &R,
    path: &[u8],
    room: &mut [u8],
    unread: &[u8],
    errors: &mut W,
) -> Result<Option<usize>, Unread>
    ensures { IfOk result (λ found. IfSome found (λ len. IsPrefixLen len room.new)) }
{
    match open(rt, path, unread, errors)? {
        Some(mut file) => Ok(Some(read_told(&mut file, room, unread, errors)?)),
        None => Ok(None),
    }
}
