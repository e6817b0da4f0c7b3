// The desk program: reads field.bin, reference.bin, lengths.bin, map.bin and samples.bin of the current folder, and writes a line for each
// sample.
// What is wrong is told on standard error.
#![tactic(auto)]

use files::told;
use files::write::settle_output;

fn main(rt: HostRuntime) {
    let mut errors = rt.stderr();
    session::desk::run(
        &rt,
        b"field.bin",
        b"reference.bin",
        b"lengths.bin",
        b"map.bin",
        b"samples.bin",
        &mut rt.stdout(),
        &mut errors,
    );
    if let Err(error) = settle_output(&rt) {
        told::tell(
            &mut errors,
            b"standard output: it can't be closed, so lines may be lost",
            &error,
        );
    }
}
