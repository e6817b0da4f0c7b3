// Readings of the S2's calibration table, a call for each parameter.
ghost use Rattle.std.specs.Prelude.{◌≡◌};
ghost use Rattle.s2_readings.specs.declared.tag.RtcCalibParam.TheVariants.{Vlow, Vhigh, Vinit};
ghost use Rattle.s2_readings.specs.Reading.{calib_reading_of, skipped_reading_of};
ghost use Rattle.capi.specs.Answer.{reading_c};

use capi::answer::SkvReading;
use s2_readings::reading;
use s2_readings::tag::RtcCalibParam;

// Kept: C has a call for each parameter, with the eFuse and without, by its own name.

// The low-voltage reading, of version 1; 0 where it doesn't pair with the version. Refusals 1, 20, 7, 5.
#[unsafe(no_mangle)]
pub extern "C" fn skv_s2_reading_vlow(
    dump: &[u32],
    lengths: &[u8],
    version: u8,
    unit: u8,
    atten: u8,
) -> SkvReading
    ensures { result ≡ reading_c (calib_reading_of lengths.now dump.now version unit atten Vlow) }
{
    reading::rtc_calib_reading(dump, lengths, version, unit, atten, RtcCalibParam::Vlow).into()
}

// The high-voltage reading; 0 where it doesn't pair with the version. Refusals 1, 20, 7, 5.
#[unsafe(no_mangle)]
pub extern "C" fn skv_s2_reading_vhigh(
    dump: &[u32],
    lengths: &[u8],
    version: u8,
    unit: u8,
    atten: u8,
) -> SkvReading
    ensures { result ≡ reading_c (calib_reading_of lengths.now dump.now version unit atten Vhigh) }
{
    reading::rtc_calib_reading(dump, lengths, version, unit, atten, RtcCalibParam::Vhigh).into()
}

// The initial code, of version 2; 0 where it doesn't pair with the version. Refusals 1, 20, 7, 5.
#[unsafe(no_mangle)]
pub extern "C" fn skv_s2_reading_vinit(
    dump: &[u32],
    lengths: &[u8],
    version: u8,
    unit: u8,
    atten: u8,
) -> SkvReading
    ensures { result ≡ reading_c (calib_reading_of lengths.now dump.now version unit atten Vinit) }
{
    reading::rtc_calib_reading(dump, lengths, version, unit, atten, RtcCalibParam::Vinit).into()
}

// The same of `skv_s2_reading_vlow` with the eFuse skipped, which takes no dump: the bases alone. Refusal 7.
#[unsafe(no_mangle)]
pub extern "C" fn skv_s2_skipped_vlow(version: u8, unit: u8, atten: u8) -> SkvReading
    ensures { result ≡ reading_c (skipped_reading_of version unit atten Vlow) }
{
    reading::rtc_calib_reading_skipped(version, unit, atten, RtcCalibParam::Vlow).into()
}

// The same of `skv_s2_reading_vhigh` with the eFuse skipped, which takes no dump: the bases alone. Refusal 7.
#[unsafe(no_mangle)]
pub extern "C" fn skv_s2_skipped_vhigh(version: u8, unit: u8, atten: u8) -> SkvReading
    ensures { result ≡ reading_c (skipped_reading_of version unit atten Vhigh) }
{
    reading::rtc_calib_reading_skipped(version, unit, atten, RtcCalibParam::Vhigh).into()
}

// The same of `skv_s2_reading_vinit` with the eFuse skipped, which takes no dump: the bases alone. Refusal 7.
#[unsafe(no_mangle)]
pub extern "C" fn skv_s2_skipped_vinit(version: u8, unit: u8, atten: u8) -> SkvReading
    ensures { result ≡ reading_c (skipped_reading_of version unit atten Vinit) }
{
    reading::rtc_calib_reading_skipped(version, unit, atten, RtcCalibParam::Vinit).into()
}
