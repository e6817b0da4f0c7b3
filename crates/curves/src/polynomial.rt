// The error polynomial of a curve: `adc_val` of esp-hal's `AdcCalCurve`, calibration/curve.rs. The curve of table t at attenuation a is
// curve 4 t + a of the flat table.
ghost use Rattle.std.specs.Prelude.{IsTrue, ◌≡◌, ◌<◌, ◌≤◌, pos, ◌+ℤ◌, ◌*ℤ◌};
ghost use Rattle.std.specs.Int.{w64};
ghost use Rattle.std.proofs.Common.{SFits};
ghost use Rattle.curves.specs.Error.{horner};
ghost use Rattle.curves.specs.Flat.{curve_of, is_part};
ghost use Rattle.curves.specs.NothingLost.{Steps};

use crate::flat::coeffs;

// One step of Horner's rule.
fn step(poly: i64, v: u16, c: i64) -> i64
    requires { SFits w64 (poly *ℤ pos v) × SFits w64 (poly *ℤ pos v +ℤ c) }
    ensures { result ≡ poly *ℤ pos v +ℤ c }
{
    poly * (v as i64) + c
}

// The polynomial of these coefficients at v, by Horner's rule.
fn poly(coeffs: &[i64], v: u16) -> i64
    requires { Steps coeffs.now v }
    ensures { result ≡ horner coeffs.now v }
{
    let mut poly = 0;
    for c in coeffs.iter().rev() {
        poly = step(poly, v, *c);
    }
    poly
}

// A line answer v that curve k is to correct: k is one of the forty, and v no more than they are for.
#[derive(Clone, Copy)]
pub(crate) struct Correction {
    pub(crate) k: u8,
    pub(crate) v: u16,
    ghost known: { k < 40 },
    ghost inside: { v ≤ 4095 },
}

impl Correction {
    // The error polynomial: that of the len coefficients of the flat table from start on. That they are curve k's is asked of the caller;
    // the code has no use for k.
    fn part(self, start: usize, len: usize) -> i64
        requires is_part { IsTrue (is_part self.k start len) }
        requires least { 1 ≤ self.v }
        ensures { result ≡ horner (curve_of self.k) self.v }
    {
        poly(&coeffs()[start..start + len], self.v)
    }

    // The error polynomial. Each arm gives a curve's start in the flat table and its length as numbers that are known when this is
    // compiled, so that no table is left in the code, but each curve's own few steps with its own coefficients.
    // Kept: an arm a curve: by a `static` of both, calls by one took 1.3 to 1.6 times as long (in Rust): H2's 1.14, S3's 1.12 would miss the bar 1.35.
    #[tactic(auto, unfolding(crate::specs::Flat::curves))]
    pub(crate) fn poly_at(self) -> i64
        requires { 1 ≤ self.v }
        ensures { result ≡ horner (curve_of self.k) self.v }
    {
        match self.k {
            0 => self.part(0, 3), // esp32c3 CURVES_COEFFS1
            1 => self.part(3, 3),
            2 => self.part(6, 3),
            3 => self.part(9, 5),
            4 => self.part(14, 3), // esp32c5 CURVES_COEFFS1
            5 => self.part(17, 3),
            6 => self.part(20, 3),
            7 => self.part(23, 3),
            8 => self.part(26, 3), // esp32c6 CURVES_COEFFS1
            9 => self.part(29, 3),
            10 => self.part(32, 3),
            11 => self.part(35, 3),
            12 => self.part(38, 2), // esp32c61 CURVES_COEFFS1
            13 => self.part(40, 2),
            14 => self.part(42, 2),
            15 => self.part(44, 3),
            16 => self.part(47, 0), // esp32c6 CURVES_COEFFS1_V2
            17 => self.part(47, 0),
            18 => self.part(47, 3),
            19 => self.part(50, 3),
            20 => self.part(53, 3), // esp32h2 CURVES_COEFFS1
            21 => self.part(56, 3),
            22 => self.part(59, 3),
            23 => self.part(62, 3),
            24 => self.part(65, 2), // esp32p4 CURVES_COEFFS1
            25 => self.part(67, 2),
            26 => self.part(69, 2),
            27 => self.part(71, 2),
            28 => self.part(73, 2), // esp32p4 CURVES_COEFFS2
            29 => self.part(75, 2),
            30 => self.part(77, 2),
            31 => self.part(79, 2),
            32 => self.part(81, 3), // esp32s3 CURVES_COEFFS1
            33 => self.part(84, 3),
            34 => self.part(87, 3),
            35 => self.part(90, 5),
            36 => self.part(95, 3), // esp32s3 CURVES_COEFFS2
            37 => self.part(98, 3),
            38 => self.part(101, 3),
            39 => self.part(104, 5),
            _ => unreachable!(),
        }
    }
}
