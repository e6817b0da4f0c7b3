// Runs the desk on the files of each case of data/, after a line with the case's number; tests/oracle/README.md has their formats.
#![tactic(auto)]

use files::load::open_named;
use files::read::read_full;
use std::io::Read;

// The numbers of a case's files: two dumps, a map and a log, and, in the list of cases that have it, a file of block lengths.
const FILES: usize = 5;

const FILES_WITHOUT_LENGTHS: usize = 4;

// The number that no file has: it is missing.
const MISSING: u8 = 255;

fn digit(n: u8) -> u8 {
    b'0' + n % 10
}

// The name of a case's file: its kind's letter and its number.
fn name(kind: u8, number: u8) -> [u8; 4] {
    [kind, digit(number / 100), digit(number / 10), digit(number)]
}

// That it can't be written isn't told: then the output isn't the expected one.
fn write_heading(rt: &HostRuntime, number: u64) {
    let _ = println!(rt; "case {number}");
}

// Runs the desk on the files that a case names by their numbers.
fn run_case(rt: &HostRuntime, case: &[u8; FILES]) {
    session::desk::run(
        rt,
        &name(b'd', case[0]),
        &name(b'd', case[1]),
        &name(b'l', case[4]),
        &name(b'm', case[2]),
        &name(b's', case[3]),
        &mut rt.stdout(),
        &mut rt.stderr(),
    );
}

// Reads the next case, which has the numbers of so many files, at most all; `None` where there isn't one.
fn read_case<F: Read>(cases: &mut F, files: usize) -> Option<[u8; FILES]> {
    let mut case = [MISSING; FILES];
    let read = read_full(cases, case.get_mut(..files)?).ok()?;
    (read == files).then_some(case)
}

// Runs the cases to their end, numbered from the first on, and gives the number after theirs.
// Kept: a `for` over numbers: it indexes nothing; the number is a case's heading, and no file says that it ends.
fn run_cases<F: Read>(rt: &HostRuntime, cases: &mut F, files: usize, first: u64) -> u64 {
    for number in first..u64::MAX {
        let Some(case) = read_case(cases, files) else {
            return number;
        };
        write_heading(rt, number);
        run_case(rt, &case);
    }
    u64::MAX
}

// Runs the cases of a list, each of which has the numbers of so many files. A list that can't be opened has none.
fn run_list(rt: &HostRuntime, name: &[u8], files: usize, first: u64) -> u64 {
    match open_named(rt, name) {
        Ok(mut cases) => run_cases(rt, &mut cases, files, first),
        Err(_) => first,
    }
}

fn main(rt: HostRuntime) {
    let number = run_list(&rt, b"cases", FILES_WITHOUT_LENGTHS, 0);
    run_list(&rt, b"lengths_cases", FILES, number);
}
