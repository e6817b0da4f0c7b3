// Replays the lists of data/ with the library's S2 calibration and flash encryption; tests/oracle/README.md has their formats.
#![tactic(auto)]

mod calls;

use calls::same_call;
use replay::Dumps::Each;
use replay::{Layout, replay_list};

fn main(rt: HostRuntime) {
    replay_list(&rt, b"calls", Layout::eights(32, Some(Each(64))), same_call);
    replay_list(
        &rt,
        b"short_calls",
        Layout::own(48, Some(Each(64))),
        same_call,
    );
}
