// Writing to a writer, and what is told only behind the last write.
use std::fs;
use std::fs::{OpenFile, OpenOptions};
use std::io::{Error, ErrorKind, Write};
use std::rt::Files;

// A name that opens standard output once more.
const OUTPUT: &str = "/dev/stdout";

// Writes all of the bytes. It stops at the first write that fails, whose error it answers.
pub fn write_all<W: Write>(writer: &mut W, bytes: &[u8]) -> Result<(), Error> {
    writer.write_all(bytes)
}

// Standard output, if it is a file that can be opened once more.
fn output_file<R: Files>(rt: &R) -> Result<Option<R::File>, Error> {
    if !fs::metadata(rt, OUTPUT)?.is_file() {
        return Ok(None);
    }
    let file = OpenOptions::new().append(true).open(rt, OUTPUT)?;
    Ok(Some(file))
}

// Whether an error only says that there is nothing to wait for.
fn is_needless(error: &Error) -> bool {
    matches!(
        error.kind(),
        ErrorKind::InvalidInput | ErrorKind::Unsupported
    )
}

// Waits till what was written to standard output has arrived, and answers the error if it hasn't: some systems tell that only when a file
// is closed, and std keeps to itself how that went. What isn't a file has told all by its writes.
pub fn settle_output<R: Files>(rt: &R) -> Result<(), Error> {
    let Ok(Some(file)) = output_file(rt) else {
        return Ok(());
    };
    match file.sync_data() {
        Err(error) if !is_needless(&error) => Err(error),
        _ => Ok(()),
    }
}
