// The signed codes: Vref's in sign and magnitude, two-point codes in two's complement but for one pattern. In esp-hal:
// `decode_bits`.
ghost use Rattle.std.specs.Prelude.{◌≡◌, ◌-◌, ◌^◌, ◌<◌, ◌≤◌};
ghost use Rattle.terms.specs.Unit.{by_unit};
ghost use Rattle.esp32.specs.Code.{vref_of, point_of, low_of, high_of};
ghost use Rattle.esp32.specs.Private.{Coded};

const VREF_WIDTH: u32 = 5;

const VREF_STEP_SIZE: u32 = 7;

const VREF_OFFSET: u32 = 1100;

const TP_STEP_SIZE: u32 = 4;

const TP_LOW1_OFFSET: u32 = 278;

const TP_LOW2_OFFSET: u32 = 421;

const TP_LOW_WIDTH: u32 = 7;

const TP_HIGH1_OFFSET: u32 = 3265;

const TP_HIGH2_OFFSET: u32 = 3406;

const TP_HIGH_WIDTH: u32 = 9;

// What is ADC1's for unit 0, and ADC2's for unit 1.
pub(crate) fn by_unit(unit: u8, adc1: u32, adc2: u32) -> u32
    ensures { result ≡ by_unit unit adc1 adc2 }
{
    if unit == 0 { adc1 } else { adc2 }
}

// What the sign bit of a width is worth.
fn sign_bit(width: u32) -> u32
    requires { (1 ≤ width) × (width ≤ 32) }
    ensures { result ≡ 2 ^ (width - 1) }
{
    1 << (width - 1)
}

// Vref in millivolts, from its five bits.
#[tactic(auto, using(crate::proofs::Codes::vref_plus, crate::proofs::Codes::vref_minus))]
pub(crate) fn efuse_vref(bits: u32) -> u32
    requires { bits < 32 }
    ensures { result ≡ vref_of bits }
{
    let sign = sign_bit(VREF_WIDTH);
    if bits < sign {
        VREF_OFFSET + VREF_STEP_SIZE * bits
    } else {
        VREF_OFFSET - VREF_STEP_SIZE * (bits - sign)
    }
}

// The count that a two-point code of any width stands for: its magnitude is what a wrapping negation leaves below the sign bit.
#[tactic(auto, using(crate::proofs::Codes::point_plus, crate::proofs::Codes::point_minus))]
fn efuse_tp(base: u32, width: u32, bits: u32) -> u32
    requires { Coded base width bits }
    ensures { result ≡ point_of base width bits }
{
    let sign = sign_bit(width);
    if bits < sign {
        base + TP_STEP_SIZE * bits
    } else {
        base - TP_STEP_SIZE * (std::num::wrapping_sub_u32(0, bits) % sign)
    }
}

// The count at 150 mV, from its seven bits.
#[tactic(auto, unfolding(crate::specs::Code::low_of))]
pub(crate) fn efuse_tp_low(unit: u8, bits: u32) -> u32
    requires { bits < 128 }
    ensures { result ≡ low_of unit bits }
{
    efuse_tp(
        by_unit(unit, TP_LOW1_OFFSET, TP_LOW2_OFFSET),
        TP_LOW_WIDTH,
        bits,
    )
}

// The count at 850 mV, from its nine bits.
#[tactic(auto, unfolding(crate::specs::Code::high_of))]
pub(crate) fn efuse_tp_high(unit: u8, bits: u32) -> u32
    requires { bits < 512 }
    ensures { result ≡ high_of unit bits }
{
    efuse_tp(
        by_unit(unit, TP_HIGH1_OFFSET, TP_HIGH2_OFFSET),
        TP_HIGH_WIDTH,
        bits,
    )
}
