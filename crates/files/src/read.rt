// Reading on from a reader.
ghost use Rattle.std.specs.Prelude.{IfErr};
ghost use Rattle.std.specs.Counts.{IsPrefixLen};
ghost use Rattle.std.specs.Io.{ReadsAtMost};

use std::io::{Error, ErrorKind, Read};

// A read that failed, and how many bytes of the room were filled before it.
#[derive(Clone, Copy)]
pub struct Torn {
    pub len: usize,
    pub error: Error,
}

// Reads until the room is full, the file ends or a read fails. It answers how many bytes of the room are filled: one that isn't full has
// the end.
pub fn read_full<R: Read>(reader: &mut R, room: &mut [u8]) -> Result<usize, Torn>
    ensures filled { ReadsAtMost result room.new }
    ensures torn { IfErr result (λ torn. IsPrefixLen torn.len room.new) }
{
    let mut len = 0;
    for _ in 0..u64::MAX {
        if len == room.len() {
            return Ok(len);
        }
        match reader.read(&mut room[len..]) {
            Ok(0) => return Ok(len),
            Ok(n) => len += n,
            Err(error) if error.kind() == ErrorKind::Interrupted => {}
            Err(error) => return Err(Torn { len, error }),
        }
    }
    Err(Torn {
        len,
        error: Error::from(ErrorKind::TimedOut),
    })
}
