// The version of the C6's calibration.
ghost use Rattle.std.specs.Prelude.{◌≡◌};
ghost use Rattle.terms.specs.C6Version.{version_of};

// The calibration's version for a minor block version: 1 or 2, or 0 where there is none.
// Kept: 0 and not `None`: docs/RULES.md and C have the number 0 where there is no calibration.
#[tactic(auto, unfolding(crate::specs::C6Version::version_of))]
pub fn rtc_calib_version(minor: u8) -> u8
    ensures { result ≡ version_of minor }
{
    if minor == 1 {
        return 1;
    }
    if 2 <= minor {
        return 2;
    }
    0
}
