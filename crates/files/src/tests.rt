// Reads and writes that are cut short, interrupted and that fail in between, by a reader and a writer of our own.
use crate::load::{Unread, load};
use crate::read::read_full;
use crate::told::tell;
use crate::write::write_all;
use std::io::{Error, Read, Result, Write};
use std::test::Fail;

// The system's numbers of an interrupted call, of an input that fails, of a folder and of a full disk.
const INTERRUPTED: i32 = 4;

const FAILED: i32 = 5;

const FOLDER: i32 = 21;

const FULL: i32 = 28;

// Gives two bytes at a time. The second call is interrupted, and the fourth fails.
#[derive(Drop)]
struct Tearing {
    calls: u8,
}

impl Read for Tearing {
    fn read(&mut self, buf: &mut [u8]) -> Result<usize> {
        self.calls = self.calls.saturating_add(1);
        match self.calls {
            2 => Err(Error::from_raw_os_error(INTERRUPTED)),
            4 => Err(Error::from_raw_os_error(FAILED)),
            _ => {
                let mut two: &[u8] = b"ab";
                two.read(buf)
            }
        }
    }
}

// Takes a byte at a time. The second call is interrupted, and the fourth finds the disk full.
#[derive(Drop)]
struct Filling {
    calls: u8,
    taken: usize,
}

impl Write for Filling {
    fn write(&mut self, buf: &[u8]) -> Result<usize> {
        self.calls = self.calls.saturating_add(1);
        if self.calls == 2 {
            return Err(Error::from_raw_os_error(INTERRUPTED));
        }
        if self.calls == 4 {
            return Err(Error::from_raw_os_error(FULL));
        }
        let n = buf.len().min(1);
        self.taken = self.taken.saturating_add(n);
        Ok(n)
    }

    fn flush(&mut self) -> Result<()> {
        Ok(())
    }
}

#[test]
fn a_read_that_fails_is_no_end(rt: HostRuntime) -> std::result::Result<(), Fail> {
    let mut room = [0u8; 8];
    let torn = read_full(&mut Tearing { calls: 0 }, &mut room)
        .err()
        .ok_or("no failure")?;
    assert_eq!(rt; torn.len, 4);
    assert_eq!(rt; room, [b'a', b'b', b'a', b'b', 0, 0, 0, 0]);
    assert_eq!(rt; torn.error.raw_os_error(), Some(FAILED));
    Ok(())
}

#[test]
fn a_full_room_ends_the_reads(rt: HostRuntime) {
    let mut room = [0u8; 3];
    let read = read_full(&mut Tearing { calls: 0 }, &mut room);
    assert_eq!(rt; read.ok(), Some(3));
    assert_eq!(rt; room, [b'a', b'b', b'a']);
}

#[test]
fn an_end_is_no_failure(rt: HostRuntime) {
    let mut room = [0u8; 3];
    let mut two: &[u8] = b"ab";
    assert_eq!(rt; read_full(&mut two, &mut room).ok(), Some(2));
}

#[test]
fn a_write_stops_where_it_fails(rt: HostRuntime) {
    let mut disk = Filling { calls: 0, taken: 0 };
    let written = write_all(&mut disk, b"abcd");
    assert_eq!(rt; disk.taken, 2);
    assert_eq!(rt;
        written.err().and_then(|error| error.raw_os_error()),
        Some(FULL)
    );
    let mut disk = Filling { calls: 0, taken: 0 };
    assert!(rt; write_all(&mut disk, b"ab").is_ok());
    assert_eq!(rt; disk.taken, 2);
}

#[test]
fn a_reason_is_told_without_its_number(rt: HostRuntime) {
    let mut line = Vec::new(rt.alloc());
    tell(&mut line, b"map.bin", &Error::from_raw_os_error(FOLDER));
    assert_eq!(rt; line.as_slice(), b"map.bin: Is a directory\n".as_slice());
    let mut line = Vec::new(rt.alloc());
    tell(&mut line, b"map.bin", &Error::other("no reason"));
    assert_eq!(rt; line.as_slice(), b"map.bin: no reason\n".as_slice());
}

#[test]
fn a_missing_file_is_not_one_that_cannot_be_read(rt: HostRuntime) {
    let mut room = [0u8; 4];
    let mut errors = Vec::new(rt.alloc());
    let missing = load(&rt, b"/no/such/file", &mut room, b"map.bin", &mut errors);
    assert_eq!(rt; missing, Ok(None));
    assert_eq!(rt; errors.as_slice(), b"".as_slice());
    let folder = load(&rt, b"/", &mut room, b"map.bin", &mut errors);
    assert_eq!(rt; folder, Err(Unread));
    assert_eq!(rt; errors.as_slice(), b"map.bin: Is a directory\n".as_slice());
}
