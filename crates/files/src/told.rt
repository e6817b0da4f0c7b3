// Telling why the system refused a call, in its own words.
ghost use Rattle.std.specs.Prelude.{◌≤◌};

use std::io::{Error, Write};

// The most bytes of a reason; the C library's have fewer.
const MOST: usize = 128;

// Behind its words std puts a reason's number, which begins so and isn't told.
const NUMBER: &[u8] = b" (os error ";

// What stands before a reason's number.
fn without_number(text: &[u8]) -> &[u8] {
    match text.windows(NUMBER.len()).position(|part| part == NUMBER) {
        Some(at) => &text[..at],
        None => text,
    }
}

// Writes a line: what failed, as the caller names it, a colon and the system's reason. Where even this can't be written, nobody is left to
// be told.
pub fn tell<W: Write>(to: &mut W, what: &[u8], error: &Error) {
    // Kept: a String wants an allocator, which tell isn't handed, and an ArrayString takes a piece whole or not at all.
    let mut reason = [0u8; MOST];
    let mut room = &mut reason[..];
    // of a reason that is too long the end is left out
    let _ = write!(room, "{error}");
    let len = MOST.saturating_sub(room.len());
    let _ = to.write_all(what);
    let _ = to.write_all(b": ");
    let _ = to.write_all(without_number(&reason[..len]));
    let _ = to.write_all(b"\n");
}
