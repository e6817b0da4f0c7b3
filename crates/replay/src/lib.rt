// What the programs that replay lists of another implementation's answers have in common: going through a list from case to case,
// counting the answers that differ.
#![tactic(auto)]

pub mod answer;
pub mod bytes;
mod list;

use files::load::open_named;
use files::read::read_full;
use list::Room;
pub use list::{Case, Dumps, Layout};
use std::fmt::Display;
use std::io::Read;
use std::rt::Files;

// A difference is named where it is one of the first few.
const MOST_NAMED: u64 = 5;

// How many cases of a list were compared, and how many of them differ.
#[derive(Clone, Copy, Default)]
struct Tally {
    compared: u64,
    differ: u64,
}

// Compares a list to its end: `same` tells whether the library answers a case as the list says. The first few differences are named by
// their case's number, from 0, and a closing line counts all. A list that can't be opened has no case.
pub fn replay_list<R: Files + Print, S: FnMut(Case) -> bool>(
    rt: &R,
    name: &[u8],
    layout: Layout,
    same: S,
)
    requires { S.IsAlwaysCallable same }
{
    let tally = match open_named(rt, name) {
        Ok(mut list) => compare(rt, name, &mut list, layout, same),
        Err(_) => Tally::default(),
    };
    let Tally { compared, differ } = tally;
    write_line(
        rt,
        name,
        format_args!(": {compared} compared, {differ} differ"),
    );
}

// Compares the cases of a list.
// Kept: a `for` over numbers: it counts cases and indexes nothing; a loop has to end, and nothing says that a file does.
fn compare<R: Print, F: Read, S: FnMut(Case) -> bool>(
    rt: &R,
    name: &[u8],
    list: &mut F,
    layout: Layout,
    mut same: S,
) -> Tally
    requires { S.IsAlwaysCallable same }
{
    let mut room = Room::new(layout);
    let mut differ = 0u64;
    for number in 0..u64::MAX {
        if !room.read_case(list, number) {
            return Tally {
                compared: number,
                differ,
            };
        }
        if !same(room.case()) {
            name_difference(rt, name, number, differ);
            differ = differ.saturating_add(1);
        }
    }
    Tally {
        compared: u64::MAX,
        differ,
    }
}

// Names a difference by its case's number, if few were named before.
fn name_difference<R: Print>(rt: &R, name: &[u8], number: u64, before: u64) {
    if before < MOST_NAMED {
        write_line(rt, name, format_args!(": case {number} differs"));
    }
}

// Writes a line that begins with a list's name. That it can't be written isn't told: then the output isn't the expected one.
fn write_line<R: Print, D: Display + Drop>(rt: &R, name: &[u8], said: D) {
    let _ = rt.write_all(name);
    let _ = rt.println(said);
}

// The first n words, or those of them that there are.
pub fn lent(words: &[u32], n: u8) -> &[u32] {
    &words[..words.len().min(n as usize)]
}

// Reads a file to the start of a room, and tells how many bytes it has there.
pub fn read<R: Files + Print>(rt: &R, name: &[u8], room: &mut [u8]) {
    let read = match open_named(rt, name) {
        Ok(mut file) => read_full(&mut file, room).unwrap_or_else(|torn| torn.len),
        Err(_) => 0,
    };
    write_line(rt, name, format_args!(": {read} bytes"));
}
