// Replays the lists of data/ with the library's curve correction; tests/oracle/README.md has their formats.
#![tactic(auto)]

mod corrections;

use corrections::{same_single, same_table};
use replay::{Layout, replay_list};

fn main(rt: HostRuntime) {
    replay_list(&rt, b"tables", Layout::eights(4100, None), same_table);
    replay_list(&rt, b"single", Layout::eights(12, None), same_single);
}
