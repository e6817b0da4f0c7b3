// The tags of the S2's calibration table, by version, unit, attenuation and parameter.
ghost use Rattle.std.specs.Prelude.{◌≡◌, ◌≤◌};
ghost use Rattle.s2_readings.specs.Tag.{by_version, first_tag, tag_of};

// What is read of the table.
#[derive(Clone, Copy, Debug, PartialEq, Eq)]
pub enum RtcCalibParam {
    // Low-voltage reading, of version 1.
    Vlow,
    // High-voltage reading.
    Vhigh,
    // Initial code, of version 2.
    Vinit,
}

// The one or the other by a version, or 0 where there is no such version.
// Kept: 0 and not `None`, here and below, since tag 0 is an entry of the table, as the definition `tag_of` has it.
#[tactic(auto, unfolding(crate::specs::Tag::by_version))]
fn by_version(version: u8, one: u8, two: u8) -> u8
    ensures { result ≡ by_version version one two }
{
    match version {
        1 => one,
        2 => two,
        _ => 0,
    }
}

// The first tag of a version and a parameter, or 0 where they don't pair.
fn first_tag(version: u8, param: RtcCalibParam) -> u8
    ensures { result ≡ first_tag version param }
{
    match param {
        RtcCalibParam::Vlow => by_version(version, 1, 0),
        RtcCalibParam::Vhigh => by_version(version, 9, 17),
        RtcCalibParam::Vinit => by_version(version, 0, 25),
    }
}

// The tag of a version, unit, attenuation and parameter, or 0 where version and parameter don't pair.
#[tactic(auto, using(crate::proofs::Tags::first_most), unfolding(crate::specs::Tag::tag_of))]
pub(crate) fn rtc_calib_tag(version: u8, unit: u8, atten: u8, param: RtcCalibParam) -> u8
    requires { (unit ≤ 1) × (atten ≤ 3) }
    ensures { result ≡ tag_of version unit atten param }
{
    let offset = first_tag(version, param);
    if offset == 0 {
        return 0;
    }
    offset + unit * 4 + atten
}
