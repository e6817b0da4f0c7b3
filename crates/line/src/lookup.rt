// The lookup: voltages from count 2880 on, between points that stand 64 counts apart. In esp-hal: `calculate_voltage_lut`.
ghost use Rattle.std.specs.Prelude.{◌≡◌, true, ◌+◌, ◌*◌, ◌-◌, ◌/◌, ◌%◌, ◌≤◌};
ghost use Rattle.lut.specs.Point.{point_at};
ghost use Rattle.line.specs.Lookup.{has_lookup, lookup_voltage, slope_from, lut_slope};

use line_record::record::{LineRecord, converter_in_ranges};
use lut::row::{Row, lut_row};
use terms::refusal::LAST_COUNT;

pub const LUT_LOW_THRESH: u32 = 2880;

pub const LUT_ADC_STEP_SIZE: u32 = 64;

pub const LUT_SCALE: u32 = 12800;

const LUT_ROUND: u32 = 6400;

const LUT_POINTS: u32 = 20;

const LUT_VREF_LOW: u32 = 1000;

const LUT_VREF_HIGH: u32 = 1200;

const LUT_VREF_SPAN: u32 = LUT_VREF_HIGH - LUT_VREF_LOW;

// A sum at a count, and what each count more adds to it. A voltage is a quotient of such a sum, which has the rounding in it.
#[derive(Clone, Copy, Debug, PartialEq, Eq)]
pub struct Slope {
    pub sum: u32,
    pub rise: u32,
}

// `LUT_SCALE` times the voltage at a count between two points, rounding included. Points stand at multiples of 64.
#[tactic(auto, using(crate::proofs::Lookups::sum_room))]
fn lut_sum(here: u32, there: u32, raw: u32) -> u32
    requires { (here ≤ 642545) × (there ≤ 642545) }
    ensures { result ≡ here * (64 - raw % 64) + there * (raw % 64) + 6400 }
{
    let place = raw % LUT_ADC_STEP_SIZE;
    here * (LUT_ADC_STEP_SIZE - place) + there * place + LUT_ROUND
}

// One of the lookup's counts, by a record whose Vref, unit and attenuation are inside their ranges.
#[derive(Clone, Copy)]
pub(crate) struct LookupCount {
    pub cal: LineRecord,
    pub raw: u32,
    ghost has: { has_lookup cal raw ≡ true },
}

impl LookupCount {
    // `LUT_VREF_SPAN` times the millivolts at the point of the count's step, or at the next one: the low ones, and as much of the way to
    // the high ones as Vref is above `LUT_VREF_LOW`. By the tables no difference here is below zero.
    #[tactic(auto, using(crate::proofs::Lookups::has_lookup_lem))]
    fn point(self, next: u32) -> u32
        requires { next ≤ 1 }
        ensures { result ≡ point_at self.cal.unit self.cal.vref ((self.raw - 2880) / 64 + next) }
    {
        let k = (self.raw - LUT_LOW_THRESH) / LUT_ADC_STEP_SIZE + next;
        let Row(low, high) = lut_row(LUT_POINTS * self.cal.unit as u32 + k);
        let rise = high - low;
        LUT_VREF_SPAN * low + self.cal.vref * rise - LUT_VREF_LOW * rise
    }

    // The lookup's millivolts. What it has in common with `slope` is as small as this, so that each is compiled into its one caller.
    #[tactic(auto, using(crate::proofs::Lookups::point_small, crate::proofs::Lookups::points, lut::proofs::Sums::voltage_is))]
    pub(crate) fn calculate_voltage_lut(self) -> u32
        ensures { result ≡ lookup_voltage self.cal self.raw }
    {
        lut_sum(self.point(0), self.point(1), self.raw) / LUT_SCALE
    }

    // The lookup's slope from the count.
    #[tactic(auto, using(crate::proofs::Lookups::point_small, crate::proofs::Lookups::points_rise, crate::proofs::Lookups::points))]
    fn slope(self) -> Slope
        ensures { result ≡ slope_from self.cal self.raw }
    {
        let here = self.point(0);
        let there = self.point(1);
        Slope {
            sum: lut_sum(here, there, self.raw),
            rise: there - here,
        }
    }
}

// Whether the record is inside its ranges and the count one of the lookup's.
#[tactic(auto, unfolding(crate::specs::Lookup::has_lookup))]
fn has_lookup(cal: LineRecord, raw: u32) -> bool
    ensures { result ≡ has_lookup cal raw }
{
    converter_in_ranges(cal) & (LUT_LOW_THRESH <= raw) & (raw <= LAST_COUNT as u32)
}

// The lookup's slope from a count up to the next point, whose divisor is `LUT_SCALE`; zeros where there is none.
#[tactic(auto, using(crate::proofs::Lookups::slope_some, crate::proofs::Lookups::slope_none))]
pub fn lut_slope(cal: LineRecord, raw: u32) -> Slope
    ensures { result ≡ lut_slope cal raw }
{
    if has_lookup(cal, raw) {
        LookupCount { cal, raw }.slope()
    } else {
        Slope { sum: 0, rise: 0 }
    }
}
