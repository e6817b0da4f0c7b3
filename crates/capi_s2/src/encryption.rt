// The S2's flash encryption.
ghost use Rattle.std.specs.Prelude.{◌≡◌};
ghost use Rattle.esp32s2.specs.Encryption.{flash_encryption_of};
ghost use Rattle.capi_s2.specs.Encryption.{flash_encryption_c};

use capi::answer::{SkvRefusal, parts};
use esp32s2::encryption;
use terms::refusal::Refusal;

// Whether flash encryption is on, 1 for yes and 0 for no, or why that isn't known.
#[repr(C)]
#[derive(Clone, Copy, Debug, PartialEq, Eq)]
pub struct SkvFlashEncryption {
    pub refusal: SkvRefusal,
    pub on: u8,
}

// What C is given of that.
impl From<Result<bool, Refusal>> for SkvFlashEncryption {
    ghost from_gives = { λ answer told. told ≡ flash_encryption_c answer };

    fn from(answer: Result<bool, Refusal>) -> SkvFlashEncryption {
        let (refusal, on) = parts(answer, false);
        SkvFlashEncryption {
            refusal,
            on: on.into(),
        }
    }
}

// Whether flash encryption is on. Refusals 1, 20, the map's.
#[unsafe(no_mangle)]
pub extern "C" fn skv_s2_flash_encryption(
    dump: &[u32],
    lengths: &[u8],
    map: &[u8],
) -> SkvFlashEncryption
    ensures { result ≡ flash_encryption_c (flash_encryption_of lengths.now dump.now map.now) }
{
    encryption::flash_encryption(dump, lengths, map).into()
}
