// Replays the lists of data/ with the library's field reading, views and map checking; tests/oracle/README.md has their formats.
#![tactic(auto)]

mod fields;
mod map_checks;
mod views;

use fields::{same_bytes, same_field};
use map_checks::same_map;
use replay::Dumps::{Each, Pairs};
use replay::{Layout, read, replay_list};
use views::same_view;

fn main(rt: HostRuntime) {
    let mut good_maps = [0u8; 1536];
    read(&rt, b"good_maps", &mut good_maps);
    replay_list(
        &rt,
        b"fields",
        Layout::eights(16, Some(Each(256))),
        same_field,
    );
    replay_list(
        &rt,
        b"bytes",
        Layout::eights(48, Some(Each(64))),
        same_bytes,
    );
    replay_list(&rt, b"maps", Layout::eights(9, None), |case| {
        same_map(&good_maps, case)
    });
    replay_list(
        &rt,
        b"short_fields",
        Layout::own(32, Some(Each(128))),
        same_field,
    );
    replay_list(
        &rt,
        b"short_bytes",
        Layout::own(64, Some(Each(64))),
        same_bytes,
    );
    replay_list(&rt, b"short_maps", Layout::own(25, None), |case| {
        same_map(&good_maps, case)
    });
    replay_list(&rt, b"views", Layout::own(56, Some(Pairs(64))), same_view);
}
