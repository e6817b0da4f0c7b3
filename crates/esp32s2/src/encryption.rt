// The S2's flash encryption.
ghost use Rattle.std.specs.Prelude.{◌≡◌};
ghost use Rattle.esp32s2.specs.Encryption.{odd_ones, flash_encryption_of};

use inputs::input::check_fields;
use maps::value::record_value;
use terms::chip::MapChip;
use terms::refusal::Refusal;

// Where the map has the field with id 8.
const SPI_BOOT_CRYPT_CNT: usize = 1;

// Whether a number has an odd number of ones.
fn odd_ones(count: u8) -> bool
    ensures { result ≡ odd_ones count }
{
    count.count_ones() % 2 == 1
}

// Whether flash encryption is on. Refusals 1, 20, the map's.
pub fn flash_encryption(dump: &[u32], lengths: &[u8], map: &[u8]) -> Result<bool, Refusal>
    ensures { result ≡ flash_encryption_of lengths.now dump.now map.now }
{
    check_fields(MapChip::S2, dump, lengths, map)?;
    Ok(odd_ones(record_value(dump, lengths, map, SPI_BOOT_CRYPT_CNT) as u8))
}
