// What C is handed and given by value, where more than one part of the library has it.
ghost use Rattle.std.specs.Prelude.{◌≡◌};
ghost use Rattle.terms.specs.Refusal.{refusal_of, value_of};
ghost use Rattle.capi.specs.Answer.{refusal_c, outcome_c, voltage_c, code_c, reading_c};

use terms::quantity::Millivolt;
use terms::refusal;
use terms::refusal::Refusal;

// Why a call was turned down, and which record of a map is bad; zeros where it wasn't. It stands in every answer that may be a refusal.
#[repr(C)]
#[derive(Clone, Copy, Debug, PartialEq, Eq)]
pub struct SkvRefusal {
    pub number: u8,
    pub record: u8,
    pub place: u8,
}

// A raw reading of the converter, and a voltage: two types, so that C's compiler keeps them apart too.
#[repr(C)]
#[derive(Clone, Copy, Debug, PartialEq, Eq)]
pub struct SkvCount {
    pub raw: u16,
}

#[repr(C)]
#[derive(Clone, Copy, Debug, PartialEq, Eq)]
pub struct SkvMillivolt {
    pub mv: u16,
}

// How a call ended that has no values to give.
#[repr(C)]
#[derive(Clone, Copy, Debug, PartialEq, Eq)]
pub struct SkvOutcome {
    pub refusal: SkvRefusal,
}

// A voltage, a code or a reading, or why there is none.
#[repr(C)]
#[derive(Clone, Copy, Debug, PartialEq, Eq)]
pub struct SkvVoltage {
    pub refusal: SkvRefusal,
    pub voltage: SkvMillivolt,
}

#[repr(C)]
#[derive(Clone, Copy, Debug, PartialEq, Eq)]
pub struct SkvCode {
    pub refusal: SkvRefusal,
    pub code: u16,
}

#[repr(C)]
#[derive(Clone, Copy, Debug, PartialEq, Eq)]
pub struct SkvReading {
    pub refusal: SkvRefusal,
    pub value: i32,
}

// What C is given of a refusal.
impl From<Refusal> for SkvRefusal {
    ghost from_gives = { λ why told. told ≡ refusal_c why };

    fn from(why: Refusal) -> SkvRefusal {
        SkvRefusal {
            number: why.number,
            record: why.record,
            place: why.place,
        }
    }
}

// What C is given of any answer: its refusal, zeros where the call wasn't turned down, and its value, the zeros handed in where it was.
pub fn parts<T: Copy>(answer: Result<T, Refusal>, zeros: T) -> (SkvRefusal, T)
    ensures { result ≡ (refusal_c (refusal_of answer), value_of zeros answer) }
{
    match answer {
        Ok(value) => (refusal::plain(refusal::NONE).into(), value),
        Err(why) => (why.into(), zeros),
    }
}

// What C is given of an outcome.
impl From<Result<(), Refusal>> for SkvOutcome {
    ghost from_gives = { λ answer told. told ≡ outcome_c answer };

    fn from(answer: Result<(), Refusal>) -> SkvOutcome {
        let (refusal, ()) = parts(answer, ());
        SkvOutcome { refusal }
    }
}

// What C is given of a voltage, a code or a reading; its value is 0 beside a refusal.
// Kept: an `impl` for each: C's structs are types of their own; what the impls have in common is `parts`.
impl From<Result<Millivolt, Refusal>> for SkvVoltage {
    ghost from_gives = { λ answer told. told ≡ voltage_c answer };

    fn from(answer: Result<Millivolt, Refusal>) -> SkvVoltage {
        let (refusal, voltage) = parts(answer, Millivolt(0));
        SkvVoltage {
            refusal,
            voltage: SkvMillivolt { mv: voltage.0 },
        }
    }
}

impl From<Result<u16, Refusal>> for SkvCode {
    ghost from_gives = { λ answer told. told ≡ code_c answer };

    fn from(answer: Result<u16, Refusal>) -> SkvCode {
        let (refusal, code) = parts(answer, 0);
        SkvCode { refusal, code }
    }
}

impl From<Result<i32, Refusal>> for SkvReading {
    ghost from_gives = { λ answer told. told ≡ reading_c answer };

    fn from(answer: Result<i32, Refusal>) -> SkvReading {
        let (refusal, value) = parts(answer, 0);
        SkvReading { refusal, value }
    }
}
