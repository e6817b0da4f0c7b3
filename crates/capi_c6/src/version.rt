// The C6's version.
ghost use Rattle.std.specs.Prelude.{◌≡◌};
ghost use Rattle.terms.specs.C6Version.{version_of};

use terms::c6_version;

// The calibration's version for a minor block version: 1 or 2, or 0 where there is none.
#[unsafe(no_mangle)]
pub extern "C" fn skv_c6_version(minor: u8) -> u8
    ensures { result ≡ version_of minor }
{
    c6_version::rtc_calib_version(minor)
}
