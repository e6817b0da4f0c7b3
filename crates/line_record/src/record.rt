// The line record: what converting and filling go by. In esp-hal: `AdcCalLine`.
ghost use Rattle.std.specs.Prelude.{◌≡◌, true};
ghost use Rattle.terms.specs.Refusal.{outcome_of};
ghost use Rattle.line_record.specs.Record.{uses_lookup, line_in_ranges, converter_in_ranges, has_vref_line, fits_source, good_record, record_refusal};

use terms::refusal::{LAST_ATTEN, LAST_UNIT, LINE_RECORD, Refusal, plain};
use vref::coefficients::{LARGEST_VREF, is_vref_line};

const LARGEST_A: u32 = 131071;

const LARGEST_B: u32 = 4095;

const SMALLEST_VREF: u32 = 995;

const LUT_ATTEN: u8 = 3;

// Where a and b of a record come from.
#[derive(Clone, Copy, Debug, PartialEq, Eq)]
pub enum Source {
    TwoPoint,
    Vref,
}

// The line's coefficients, Vref in millivolts, the unit and the attenuation, and the source.
#[derive(Clone, Copy, Debug, PartialEq, Eq)]
pub struct LineRecord {
    pub coeff_a: u32,
    pub coeff_b: u32,
    pub vref: u32,
    pub unit: u8,
    pub atten: u8,
    pub source: Source,
}

// Whether converting by the record uses the lookup. No other function asks for the attenuation that it is used at.
#[tactic(auto, unfolding(crate::specs::Record::uses_lookup))]
pub fn uses_lookup(cal: LineRecord) -> bool
    ensures { result ≡ uses_lookup cal }
{
    cal.atten == LUT_ATTEN
}

// Whether a and b are inside their ranges.
#[tactic(auto, unfolding(crate::specs::Record::line_in_ranges))]
fn line_in_ranges(cal: LineRecord) -> bool
    ensures { result ≡ line_in_ranges cal }
{
    (cal.coeff_a <= LARGEST_A) & (cal.coeff_b <= LARGEST_B)
}

// Whether Vref, the unit and the attenuation are inside their ranges. Comparisons are joined by `&`, so that several may be one test.
#[tactic(auto, unfolding(crate::specs::Record::converter_in_ranges))]
pub fn converter_in_ranges(cal: LineRecord) -> bool
    ensures { result ≡ converter_in_ranges cal }
{
    (SMALLEST_VREF <= cal.vref)
        & (cal.vref <= LARGEST_VREF)
        & (cal.unit <= LAST_UNIT)
        & (cal.atten <= LAST_ATTEN)
}

// Whether a and b are those that the record's Vref gives for its unit and attenuation.
#[tactic(auto, using(crate::proofs::Records::vref_tested))]
fn has_vref_line(cal: LineRecord) -> bool
    requires { converter_in_ranges cal ≡ true }
    ensures { result ≡ has_vref_line cal }
{
    is_vref_line(cal.unit, cal.atten, cal.vref, cal.coeff_a, cal.coeff_b)
}

// Whether a and b may come from the record's source. By Vref they are then inside their ranges too.
#[tactic(auto, unfolding(crate::specs::Record::fits_source))]
fn fits_source(cal: LineRecord) -> bool
    requires { converter_in_ranges cal ≡ true }
    ensures { result ≡ fits_source cal.source cal }
{
    match cal.source {
        Source::TwoPoint => line_in_ranges(cal),
        Source::Vref => has_vref_line(cal),
    }
}

// Whether the record may be converted by.
#[tactic(auto, unfolding(crate::specs::Record::good_record))]
pub fn good_record(cal: LineRecord) -> bool
    ensures { result ≡ good_record cal }
{
    converter_in_ranges(cal) && fits_source(cal)
}

// Good where the record may be converted by, else 10: it is outside its ranges, or is by Vref and has another line. Any record that
// decoding gives is good.
#[tactic(auto, unfolding(crate::specs::Record::record_refusal))]
pub fn check_record(cal: LineRecord) -> Result<(), Refusal>
    ensures { result ≡ outcome_of (record_refusal cal) }
{
    if good_record(cal) {
        Ok(())
    } else {
        Err(plain(LINE_RECORD))
    }
}
