// The coefficients a and b of a line, by two points or by Vref.
ghost use Rattle.std.specs.Prelude.{◌≡◌, ◌<◌, ◌≤◌};
ghost use Rattle.terms.specs.Refusal.{answered};
ghost use Rattle.esp32.specs.Code.{low_of, high_of};
ghost use Rattle.esp32.specs.Private.{Apart, InBits, tp_atten_of};
ghost use Rattle.esp32.specs.Characterize.{tp_scale, tp_offset, two_point_a, top_of, b_refusal, two_point_b, two_point_line, two_point_refusal};
ghost use Rattle.esp32.specs.Characterize.{coefficients_of, basis_refusal};

use crate::code;
use terms::refusal;
use terms::refusal::{Refusal, plain};
use vref::coefficients::{ATTENUATIONS, Atten, Coefficients, vref_line};

const TP_LOW_VOLTAGE: u32 = 150;

const TP_HIGH_VOLTAGE: u32 = 850;

const DELTA_V: u32 = TP_HIGH_VOLTAGE - TP_LOW_VOLTAGE;

// Where a and b come from: two points, with the raw bits of the unit's low and high codes, or Vref.
#[derive(Clone, Copy)]
pub(crate) enum Basis {
    TwoPoint(u32, u32),
    Vref,
}

// A unit at an attenuation, that there are.
#[derive(Clone, Copy)]
pub(crate) struct Setting {
    pub(crate) unit: u8,
    pub(crate) atten: u8,
    ghost inside: { (unit ≤ 1) × (atten ≤ 3) },
}

// The counts of a unit at 150 mV and at 850 mV.
#[derive(Clone, Copy)]
struct Points {
    low: u32,
    high: u32,
    ghost apart: { Apart low high },
}

// ADC1_TP_ATTEN_SCALE with ADC1_TP_ATTEN_OFFSET, then ADC2's: an entry for each unit × 4 + attenuation.
fn tp_atten(k: u8) -> Atten
    requires { k < 8 }
    ensures { result ≡ tp_atten_of k }
{
    match k {
        0 => Atten(65504, 0),
        1 => Atten(86975, 1),
        2 => Atten(120389, 27),
        3 => Atten(224310, 54),
        4 => Atten(65467, 0),
        5 => Atten(86861, 9),
        6 => Atten(120416, 26),
        _ => Atten(224708, 66),
    }
}

// b by two points; 9 where it is negative. The offset comes first: esp-hal takes t off before it, and goes below zero on the way.
#[tactic(auto, using(crate::proofs::Coefficients::b_negative, crate::proofs::Coefficients::b_not_negative, crate::proofs::Coefficients::b_refused, crate::proofs::Coefficients::b_good, crate::proofs::Coefficients::two_point_b_is))]
fn two_point_b(t: u32, offset: u32) -> Result<u32, Refusal>
    requires { offset ≤ 66 }
    ensures { result ≡ answered (b_refusal t offset) (two_point_b t offset) }
{
    if TP_HIGH_VOLTAGE + offset < t {
        return Err(plain(refusal::UNDERFLOW));
    }
    Ok(TP_HIGH_VOLTAGE + offset - t)
}

impl Points {
    // Document 01's t: b is 850 less t, and the offset.
    #[tactic(auto, unfolding(crate::specs::Characterize::top_of))]
    fn top(self) -> u32
        ensures { result ≡ top_of self.low self.high }
    {
        let delta_x = self.high - self.low;
        (DELTA_V * self.high + delta_x / 2) / delta_x
    }

    // a by two points.
    #[tactic(auto, unfolding(crate::specs::Characterize::two_point_a))]
    fn two_point_a(self, scale: u32) -> u32
        requires { scale ≤ 224708 }
        ensures { result ≡ two_point_a scale self.low self.high }
    {
        let delta_x = self.high - self.low;
        (DELTA_V * scale + delta_x / 2) / delta_x
    }
}

impl Setting {
    // The scale and the offset by two points.
    fn tp_entry(self) -> Atten
        ensures { (result.0 ≡ tp_scale self.unit self.atten) × (result.1 ≡ tp_offset self.unit self.atten) }
    {
        tp_atten(ATTENUATIONS * self.unit + self.atten)
    }

    // a and b by two points; 9 where they make b negative.
    #[tactic(auto, using(crate::proofs::Coefficients::tp_most))]
    fn characterize_using_two_point(self, points: Points) -> Result<Coefficients, Refusal>
        ensures { result ≡ answered (two_point_refusal self.unit self.atten points.low points.high) (two_point_line self.unit self.atten points.low points.high) }
    {
        let Atten(scale, offset) = self.tp_entry();
        let b = two_point_b(points.top(), offset)?;
        Ok(Coefficients {
            a: points.two_point_a(scale),
            b,
        })
    }

    // The points of the unit, by the raw bits of its codes.
    #[tactic(auto, using(crate::proofs::Codes::points_apart))]
    fn points(self, low: u32, high: u32) -> Points
        requires { (low < 128) × (high < 512) }
        ensures { (result.low ≡ low_of self.unit low) × (result.high ≡ high_of self.unit high) }
    {
        Points {
            low: code::efuse_tp_low(self.unit, low),
            high: code::efuse_tp_high(self.unit, high),
        }
    }

    // The coefficients from a basis, Vref in millivolts; 9 where the basis is two points that make b negative.
    #[tactic(auto, using(vref::proofs::Lines::line_is), unfolding(crate::specs::Characterize::coefficients_of, crate::specs::Characterize::basis_refusal))]
    pub(crate) fn characterize(self, vref: u32, basis: Basis) -> Result<Coefficients, Refusal>
        requires { (vref ≤ 1205) × InBits basis }
        ensures { result ≡ answered (basis_refusal self.unit self.atten basis) (coefficients_of self.unit self.atten vref basis) }
    {
        match basis {
            Basis::TwoPoint(low, high) => self.characterize_using_two_point(self.points(low, high)),
            Basis::Vref => Ok(vref_line(self.unit, self.atten, vref as u16)),
        }
    }
}
