// Replays the lists of data/ with the library's C6 calibration; tests/oracle/README.md has their formats.
#![tactic(auto)]

mod calls;

use calls::same_call;
use replay::Dumps::Each;
use replay::{Layout, read, replay_list};

fn main(rt: HostRuntime) {
    let mut map = [0u8; 120];
    read(&rt, b"map", &mut map);
    replay_list(&rt, b"calls", Layout::eights(24, Some(Each(128))), |case| {
        same_call(&map, case)
    });
    replay_list(
        &rt,
        b"short_calls",
        Layout::own(40, Some(Each(128))),
        |case| { same_call(&map, case) },
    );
}
