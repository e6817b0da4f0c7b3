// The version of the S2's calibration.
ghost use Rattle.std.specs.Prelude.{◌≡◌};
ghost use Rattle.esp32s2.specs.Version.{calib_version_of};

use inputs::input::check_fields;
use maps::value::record_value;
use terms::chip::MapChip;
use terms::refusal::Refusal;

// Where the map has the field with id 7.
pub const BLK_VERSION_MINOR: usize = 0;

// The calibration's version. Refusals 1, 20, the map's.
pub fn rtc_calib_version(dump: &[u32], lengths: &[u8], map: &[u8]) -> Result<u8, Refusal>
    ensures { result ≡ calib_version_of lengths.now dump.now map.now }
{
    check_fields(MapChip::S2, dump, lengths, map)?;
    Ok(record_value(dump, lengths, map, BLK_VERSION_MINOR) as u8)
}
