// The walking fill: the answers of a stretch of counts, by additions. This build's own; esp-hal converts one count at a time.
// A stretch is filled segment by segment, each in one loop: the line's counts, then from 2880 on those from each point to the next.
// What moves is the sum that the millivolts are a quotient of, by one addition a count (`ramp`); the blend alone makes products.
ghost use Rattle.std.specs.Prelude.{◌≡◌, true, ◌+◌, ◌≤◌, min, length};
ghost use Rattle.terms.specs.Refusal.{outcome_of};
ghost use Rattle.terms.specs.Table.{tab};
ghost use Rattle.line_record.specs.Record.{uses_lookup, record_refusal};
ghost use Rattle.line.specs.Convert.{line_voltage};
ghost use Rattle.stretch.specs.Fill.{fill_refusal, answers_from, filled};
ghost use Rattle.stretch.specs.Private.{line_slope, InStep, segment_left};

use crate::ramp::{blend_ramps, ramp};
use line::convert::{COEFF_A_ROUND, COEFF_A_SCALE, LUT_HIGH_THRESH, beyond_line};
use line::lookup::{LUT_ADC_STEP_SIZE, LUT_LOW_THRESH, LUT_SCALE, Slope, lut_slope};
use line_record::record::{LineRecord, check_record, uses_lookup};
use terms::quantity::Count;
use terms::refusal::{Refusal, STRETCH, plain};

const COUNTS: u32 = 4096;

// How many counts from a given one on are in its segment. Points stand at multiples of 64.
#[tactic(auto, unfolding(crate::specs::Private::segment_left))]
fn segment_left(cal: LineRecord, count: u32) -> u32
    requires { count ≤ 4096 }
    ensures { result ≡ segment_left cal count }
{
    if !uses_lookup(cal) {
        COUNTS - count
    } else if count < LUT_LOW_THRESH {
        LUT_LOW_THRESH - count
    } else {
        LUT_ADC_STEP_SIZE - count % LUT_ADC_STEP_SIZE
    }
}

// A record that nothing is wrong with.
#[derive(Clone, Copy)]
struct GoodRecord {
    cal: LineRecord,
    ghost good: { record_refusal cal ≡ 0 },
}

impl GoodRecord {
    // The line's slope from a count on; its divisor is `COEFF_A_SCALE`.
    #[tactic(auto, using(line::proofs::Answers::line_sum_most, line_record::proofs::Records::record_sound))]
    fn line_slope(self, raw: u32) -> Slope
        requires { raw ≤ 4096 }
        ensures { result ≡ line_slope self.cal raw }
    {
        Slope {
            sum: self.cal.coeff_a * raw + COEFF_A_ROUND + COEFF_A_SCALE * self.cal.coeff_b,
            rise: self.cal.coeff_a,
        }
    }

    // The line's voltages.
    #[tactic(auto, using(crate::proofs::Segments::line_fits))]
    fn fill_line(self, first: u32, out: &mut [u16])
        requires { first + length out.old ≤ 4096 }
        ensures { out.new ≡ tab (λ k. line_voltage self.cal (first + k)) (length out.old) }
    {
        ramp(self.line_slope(first), COEFF_A_SCALE, out);
    }

    // The answers from 2880 on, where the lookup is used, at most up to the next point.
    #[tactic(auto, using(crate::proofs::Segments::lut_fits))]
    fn fill_step(self, first: u32, out: &mut [u16])
        requires { (uses_lookup self.cal ≡ true) × InStep first (length out.old) }
        ensures { out.new ≡ answers_from self.cal first (length out.old) }
    {
        let lut = lut_slope(self.cal, first);
        if first < LUT_HIGH_THRESH {
            blend_ramps(self.line_slope(first), lut, first - LUT_LOW_THRESH, out);
        } else {
            ramp(lut, LUT_SCALE, out);
        }
    }

    // The answers of a stretch that lies in one segment.
    #[tactic(auto, using(crate::proofs::Segments::segment_ends))]
    fn fill_segment(self, first: u32, out: &mut [u16])
        requires { (first ≤ 4095) × (length out.old ≤ segment_left self.cal first) }
        ensures { out.new ≡ answers_from self.cal first (length out.old) }
    {
        if beyond_line(self.cal, first) {
            self.fill_step(first, out);
        } else {
            self.fill_line(first, out);
        }
    }

    // The answers of a stretch, segment by segment.
    // Kept: the place `at`; after a loop over the rest, by `split_at_mut`, nothing is known of what it wrote, so `fill`'s lent didn't close.
    fn fill_answers(self, first: u32, out: &mut [u16])
        requires { first + length out.old ≤ 4096 }
        ensures { out.new ≡ answers_from self.cal first (length out.old) }
    {
        let mut at = 0;
        while at < out.len() {
            let count = first + (at as u32);
            let end = at + (segment_left(self.cal, count) as usize).min(out.len() - at);
            self.fill_segment(count, &mut out[at..end]);
            at = end;
        }
    }
}

// What is wrong with a fill: 10, 11. No sum is made that might wrap.
#[tactic(auto, using(crate::proofs::Fills::record_refused, crate::proofs::Fills::stretch_good, crate::proofs::Fills::stretch_refused))]
fn check_fill(cal: LineRecord, first: u32, n: usize) -> Result<(), Refusal>
    ensures { result ≡ outcome_of (fill_refusal cal first n) }
{
    check_record(cal)?;
    if first <= COUNTS && n <= (COUNTS - first) as usize {
        Ok(())
    } else {
        Err(plain(STRETCH))
    }
}

// Writes the answers of the counts from a first one on, as many as the lent list has numbers; none is fine. A refusal, 10, 11, leaves
// the list as it was.
#[tactic(auto, using(crate::proofs::Fills::accepted, crate::proofs::Fills::filled_good, crate::proofs::Fills::filled_refused))]
pub fn fill(cal: LineRecord, first: Count, out: &mut [u16]) -> Result<(), Refusal>
    ensures answer { result ≡ outcome_of (fill_refusal cal first.0 (length out.old)) }
    ensures lent { out.new ≡ filled cal first.0 out.old }
{
    let first = first.0 as u32;
    check_fill(cal, first, out.len())?;
    GoodRecord { cal }.fill_answers(first, out);
    Ok(())
}
