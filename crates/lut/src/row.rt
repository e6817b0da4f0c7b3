// The tables of the lookup. In esp-hal: those beside `calculate_voltage_lut`.
ghost use Rattle.std.specs.Prelude.{◌≡◌};
ghost use Rattle.lut.specs.Row.{row_of};

// A row of the tables: millivolts at a Vref of 1000 and of 1200.
#[derive(Clone, Copy, Debug, PartialEq, Eq)]
pub struct Row(pub u32, pub u32);

// Row k of esp-hal's four tables, a row for each point: those of unit 0, then those of unit 1; zeros past them. As a `match` they are
// constant data, while a constant array would be made anew at each use.
pub fn lut_row(k: u32) -> Row
    ensures { result ≡ row_of k }
{
    match k {
        0 => Row(2240, 2667),
        1 => Row(2297, 2706),
        2 => Row(2352, 2745),
        3 => Row(2405, 2780),
        4 => Row(2457, 2813),
        5 => Row(2512, 2844),
        6 => Row(2564, 2873),
        7 => Row(2616, 2901),
        8 => Row(2664, 2928),
        9 => Row(2709, 2956),
        10 => Row(2754, 2982),
        11 => Row(2795, 3006),
        12 => Row(2832, 3032),
        13 => Row(2868, 3059),
        14 => Row(2903, 3084),
        15 => Row(2937, 3110),
        16 => Row(2969, 3135),
        17 => Row(3000, 3160),
        18 => Row(3030, 3184),
        19 => Row(3060, 3209),
        20 => Row(2238, 2657),
        21 => Row(2293, 2698),
        22 => Row(2347, 2738),
        23 => Row(2399, 2774),
        24 => Row(2451, 2807),
        25 => Row(2507, 2838),
        26 => Row(2561, 2867),
        27 => Row(2613, 2894),
        28 => Row(2662, 2921),
        29 => Row(2710, 2946),
        30 => Row(2754, 2971),
        31 => Row(2792, 2996),
        32 => Row(2831, 3020),
        33 => Row(2869, 3043),
        34 => Row(2904, 3067),
        35 => Row(2937, 3092),
        36 => Row(2968, 3116),
        37 => Row(2999, 3139),
        38 => Row(3029, 3162),
        39 => Row(3059, 3185),
        _ => Row(0, 0),
    }
}
