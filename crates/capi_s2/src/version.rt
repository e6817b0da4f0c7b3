// The S2's version.
ghost use Rattle.std.specs.Prelude.{◌≡◌};
ghost use Rattle.esp32s2.specs.Version.{calib_version_of};
ghost use Rattle.capi_s2.specs.Version.{version_c};

use capi::answer::{SkvRefusal, parts};
use esp32s2::version;
use terms::refusal::Refusal;

// A version, or why there is none.
#[repr(C)]
#[derive(Clone, Copy, Debug, PartialEq, Eq)]
pub struct SkvVersion {
    pub refusal: SkvRefusal,
    pub version: u8,
}

// What C is given of a version.
impl From<Result<u8, Refusal>> for SkvVersion {
    ghost from_gives = { λ answer told. told ≡ version_c answer };

    fn from(answer: Result<u8, Refusal>) -> SkvVersion {
        let (refusal, version) = parts(answer, 0);
        SkvVersion { refusal, version }
    }
}

// The calibration's version. Refusals 1, 20, the map's.
#[unsafe(no_mangle)]
pub extern "C" fn skv_s2_version(dump: &[u32], lengths: &[u8], map: &[u8]) -> SkvVersion
    ensures { result ≡ version_c (calib_version_of lengths.now dump.now map.now) }
{
    version::rtc_calib_version(dump, lengths, map).into()
}
