// The S2's calibration table.
ghost use Rattle.std.specs.Prelude.{◌≡◌};
ghost use Rattle.s2_readings.specs.Table.{entry_at};

// A tag's entry: the first bit and the length of its field in block 2, its multiplier, its base, and the tag that it depends on.
#[derive(Clone, Copy)]
pub(crate) struct RtcCalibEntry {
    pub(crate) bit_start: u16,
    pub(crate) len: u8,
    pub(crate) multiplier: i16,
    pub(crate) base: i16,
    pub(crate) depends: u8,
}

// An entry by its columns, as the table below has them.
fn entry(bit_start: u16, len: u8, multiplier: i16, base: i16, depends: u8) -> RtcCalibEntry
    ensures { (result.bit_start ≡ bit_start) × (result.len ≡ len) × (result.multiplier ≡ multiplier) × (result.base ≡ base) × (result.depends ≡ depends) }
{
    RtcCalibEntry {
        bit_start,
        len,
        multiplier,
        base,
        depends,
    }
}

// The entry of a tag; of a number that isn't one, tag 0's. In esp-hal: `RTC_CALIB_MAP`. As a `match` it is constant data, while a constant
// array would be made anew at each use.
#[tactic(auto, unfolding(crate::specs::Table::entry_at, crate::specs::Table::calib_map))]
pub(crate) fn entry_at(tag: u8) -> RtcCalibEntry
    ensures { result ≡ entry_at tag }
{
    match tag {
        0 => entry(0, 0, 0, 0, 0),
        // V1 low: tags 1 to 8
        1 => entry(208, 6, 4, 2231, 0),
        2 => entry(214, 6, 4, 1643, 0),
        3 => entry(220, 6, 4, 1290, 0),
        4 => entry(226, 6, 4, 701, 0),
        5 => entry(232, 6, 4, 2305, 0),
        6 => entry(238, 6, 4, 1693, 0),
        7 => entry(244, 6, 4, 1343, 0),
        8 => entry(250, 6, 4, 723, 0),
        // V1 high: tags 9 to 16
        9 => entry(144, 8, 4, 5775, 0),
        10 => entry(152, 8, 4, 5693, 0),
        11 => entry(160, 8, 4, 5723, 0),
        12 => entry(168, 8, 4, 6209, 0),
        13 => entry(176, 8, 4, 5817, 0),
        14 => entry(184, 8, 4, 5703, 0),
        15 => entry(192, 8, 4, 5731, 0),
        16 => entry(200, 8, 4, 6157, 0),
        // V2 high: tags 17 to 24
        17 => entry(197, 6, 2, 169, 19),
        18 => entry(203, 6, 2, -26, 19),
        19 => entry(209, 9, 2, 126, 22),
        20 => entry(218, 7, 2, 387, 19),
        21 => entry(225, 7, 2, 177, 22),
        22 => entry(232, 10, 2, 5815, 0),
        23 => entry(242, 7, 2, 27, 22),
        24 => entry(249, 7, 2, 410, 22),
        // V2 init: tags 25 to 32
        25 => entry(147, 8, 2, 1519, 0),
        26 => entry(155, 6, 2, 88, 25),
        27 => entry(161, 5, 2, 8, 26),
        28 => entry(166, 6, 2, 70, 27),
        29 => entry(172, 8, 2, 1677, 0),
        30 => entry(180, 6, 2, 23, 29),
        31 => entry(186, 5, 2, 6, 30),
        32 => entry(191, 6, 2, 13, 31),
        _ => entry(0, 0, 0, 0, 0),
    }
}
