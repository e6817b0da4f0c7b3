// a and b of a line by Vref. In esp-hal: `characterize_using_vref`.
ghost use Rattle.std.specs.Prelude.{◌≡◌, ◌+◌, ◌*◌, ◌%◌, ◌≤◌};
ghost use Rattle.vref.specs.Coefficients.{vref_scale, vref_offset, coefficients_for, is_vref_line};
ghost use Rattle.vref.specs.Private.{packed_of};

use terms::refusal::{LAST_ATTEN, LAST_UNIT, check_unit};

const ADC_12_BIT_RES: u32 = 4096;

// The tables have four attenuations for each unit.
pub const ATTENUATIONS: u8 = 4;

const ENTRIES: u8 = 8;

// The largest Vref that its code can stand for, in millivolts.
pub const LARGEST_VREF: u32 = 1205;

const HALF: u64 = 4294967296;

// A line's coefficients.
#[derive(Clone, Copy, Debug, PartialEq, Eq)]
pub struct Coefficients {
    pub a: u32,
    pub b: u32,
}

// A unit's scale and offset at an attenuation.
#[derive(Clone, Copy)]
pub struct Atten(pub u32, pub u32);

// Two numbers as one, whose halves they are.
fn joined(low: u32, high: u32) -> u64
    ensures { result ≡ high * 4294967296 + low }
{
    high as u64 * HALF + low as u64
}

// ADC1_VREF_ATTEN_SCALE with ADC1_VREF_ATTEN_OFFSET, then ADC2's: an entry for each unit × 4 + attenuation. As a `match` they are constant
// data, of which both numbers as one are one load; the remainder leaves no entry past the last.
fn vref_atten(k: u8) -> u64
    ensures { result ≡ packed_of (k % 8) }
{
    match k % ENTRIES {
        0 => joined(57431, 75),
        1 => joined(76236, 78),
        2 => joined(105481, 107),
        3 => joined(196602, 142),
        4 => joined(57236, 63),
        5 => joined(76175, 66),
        6 => joined(105678, 89),
        _ => joined(197170, 128),
    }
}

// The scale and the offset of a unit at an attenuation.
#[tactic(auto, using(crate::proofs::Halves::halves, crate::proofs::Lines::vref_most, crate::proofs::Lines::packed_is))]
fn vref_entry(unit: u8, atten: u8) -> Atten
    requires { (unit ≤ 1) × (atten ≤ 3) }
    ensures { (result.0 ≡ vref_scale unit atten) × (result.1 ≡ vref_offset unit atten) }
{
    let entry = vref_atten(ATTENUATIONS * unit + atten);
    Atten((entry % HALF) as u32, (entry / HALF) as u32)
}

// a and b from Vref in millivolts; zeros where there is no such unit or attenuation.
#[tactic(auto, using(crate::proofs::Lines::vref_most, terms::proofs::Refusals::unit_inside), unfolding(crate::specs::Coefficients::coefficients_for))]
pub fn vref_line(unit: u8, atten: u8, vref: u16) -> Coefficients
    ensures { result ≡ coefficients_for unit atten vref }
{
    if check_unit(unit, atten).is_err() {
        return Coefficients { a: 0, b: 0 };
    }
    let Atten(scale, offset) = vref_entry(unit, atten);
    Coefficients {
        a: (vref as u64 * scale as u64 / ADC_12_BIT_RES as u64) as u32,
        b: offset,
    }
}

// Whether a and b are those that Vref gives; none are where there is no such unit, attenuation or Vref. They are compared as one number.
#[tactic(auto, using(crate::proofs::Lines::product_small, crate::proofs::Lines::there_is, crate::proofs::Lines::by_line, crate::proofs::Lines::no_line, crate::proofs::Halves::joined_same))]
pub fn is_vref_line(unit: u8, atten: u8, vref: u32, a: u32, b: u32) -> bool
    ensures { result ≡ is_vref_line unit atten vref a b }
{
    if (unit <= LAST_UNIT) & (atten <= LAST_ATTEN) & (vref <= LARGEST_VREF) {
        let Atten(scale, offset) = vref_entry(unit, atten);
        return joined(a, b) == joined(vref * scale / ADC_12_BIT_RES, offset);
    }
    false
}
