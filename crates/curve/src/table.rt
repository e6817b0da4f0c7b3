// Which of the ten tables a chip's unit has: `curves_coeffs` of esp-hal's `AdcHasCurveCal`, calibration/curve.rs. A table goes by its
// number in the flat table.
ghost use Rattle.std.specs.Prelude.{◌≡◌, ◌≤◌, IfSome};
ghost use Rattle.curve.specs.Private.{found};
ghost use Rattle.curve.specs.Table.{table_of};

use terms::c6_version::rtc_calib_version;
use terms::chip::Chip;

// The table of a chip's unit, by its number in the flat table.
#[tactic(auto, unfolding(crate::specs::Table::table_of))]
pub(crate) fn table_of(chip: Chip, unit: u8) -> Option<u8>
    ensures table { found result ≡ table_of chip unit }
    ensures last { IfSome result (λ t. t ≤ 9) }
{
    match (chip, unit) {
        (Chip::C3, _) => Some(0),
        (Chip::C5, 0) => Some(1),
        (Chip::C6(minor), 0) => Some(if rtc_calib_version(minor) == 2 { 4 } else { 2 }),
        (Chip::C61, 0) => Some(3),
        (Chip::H2, 0) => Some(5),
        (Chip::P4, 0) => Some(6),
        (Chip::P4, _) => Some(7),
        (Chip::S3, 0) => Some(8),
        (Chip::S3, _) => Some(9),
        _ => None,
    }
}
