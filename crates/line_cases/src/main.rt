// Replays the lists of data/ with the library's line calibration; tests/oracle/README.md has their formats.
#![tactic(auto)]

mod convert;
mod decode;
mod fill;
mod handed;
mod two_boards;

use convert::same_convert;
use decode::same_decode;
use fill::{same_fill, same_stretch};
use replay::Dumps::{Each, Pairs};
use replay::{Layout, replay_list};
use two_boards::same_sample;

fn main(rt: HostRuntime) {
    replay_list(
        &rt,
        b"decode",
        Layout::eights(68, Some(Each(32))),
        same_decode,
    );
    replay_list(&rt, b"convert", Layout::eights(24, None), same_convert);
    replay_list(&rt, b"fill", Layout::eights(8208, None), same_fill);
    replay_list(&rt, b"stretches", Layout::eights(28, None), same_stretch);
    replay_list(
        &rt,
        b"short_decode",
        Layout::own(84, Some(Each(32))),
        same_decode,
    );
    replay_list(
        &rt,
        b"samples",
        Layout::own(80, Some(Pairs(32))),
        same_sample,
    );
}
