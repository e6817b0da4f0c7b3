// Sums that grow by one step a count, and their whole quotients: line and lookup are such, and so the fill moves by additions.
// What moves by additions is the sum. What is taken anew at each count is its quotient by a constant, 65536 or 12800, which the compiler
// makes a shift or a multiplication. A quotient that moved by additions too would need its remainder beside it, and a test at each count
// whether that ran over; each count would wait for the one before it, and the loop couldn't do several counts at once, as this one does.
ghost use Rattle.std.specs.Prelude.{◌≡◌, ◌+◌, ◌*◌, ◌/◌, ◌≤◌, ◌<◌, length};
ghost use Rattle.terms.specs.Table.{tab};
ghost use Rattle.line.specs.Convert.{blend_of};
ghost use Rattle.stretch.specs.Private.{along, Blended};

use line::convert::{BLEND, COEFF_A_SCALE, interpolate_two_points};
use line::lookup::{LUT_SCALE, Slope};

// Writes the quotients from the slope's count on.
pub(crate) fn ramp(slope: Slope, divisor: u32, out: &mut [u16])
    requires { (0 < divisor) × (divisor ≤ 65536) × (along slope (length out.old) < 65536 * divisor) }
    ensures { out.new ≡ tab (λ k. along slope k / divisor) (length out.old) }
{
    let mut sum = slope.sum;
    for place in out.iter_mut() {
        *place = (sum / divisor) as u16;
        sum += slope.rise;
    }
}

// Writes the blends of the line's and the lookup's quotients, where x of the blend's 64 counts are gone at the first.
pub(crate) fn blend_ramps(line: Slope, lut: Slope, x: u32, out: &mut [u16])
    requires { Blended line lut x (length out.old) }
    ensures { out.new ≡ tab (λ k. blend_of (along line k / 65536) (along lut k / 12800) (x + k)) (length out.old) }
{
    let mut line_sum = line.sum;
    let mut lut_sum = lut.sum;
    for (k, place) in out.iter_mut().enumerate() {
        let gone = x + k as u32;
        let y1 = (line_sum / COEFF_A_SCALE) as u16;
        let y2 = (lut_sum / LUT_SCALE) as u16;
        *place = interpolate_two_points(y1, y2, (BLEND - gone) as u8, gone as u8) as u16;
        line_sum += line.rise;
        lut_sum += lut.rise;
    }
}
