// Numbers and parts of a list's bytes. Any place will do: past the end a number has zeros, and a part ends.

// The n bytes from a place on, or those of them that there are.
pub fn part(bytes: &[u8], from: usize, n: usize) -> &[u8] {
    let rest = &bytes[from.min(bytes.len())..];
    &rest[..n.min(rest.len())]
}

// Puts bytes into a room from a place on, or those of them that it has room for.
pub fn put(room: &mut [u8], at: usize, bytes: &[u8]) {
    for (to, from) in room.iter_mut().skip(at).zip(bytes) {
        *to = *from;
    }
}

// The N bytes from a place on, past the end zeros.
fn padded<const N: usize>(bytes: &[u8], at: usize) -> [u8; N] {
    let mut room = [0; N];
    put(&mut room, 0, part(bytes, at, N));
    room
}

// The byte at a place.
pub fn number8(bytes: &[u8], at: usize) -> u8 {
    bytes.get(at).copied().unwrap_or(0)
}

// The number of two bytes, low first, at a place.
pub fn number16(bytes: &[u8], at: usize) -> u16 {
    u16::from_le_bytes(padded(bytes, at))
}

// The number of four bytes, low first, at a place.
pub fn number32(bytes: &[u8], at: usize) -> u32 {
    u32::from_le_bytes(padded(bytes, at))
}

// The same four bytes as a signed number.
pub fn signed32(bytes: &[u8], at: usize) -> i64 {
    i32::from_le_bytes(padded(bytes, at)).into()
}
