// Decoding: the line record of a unit at an attenuation, from a dump and its map. In esp-hal: `new_cal`.
ghost use Rattle.std.specs.Prelude.{◌≡◌, ◌<◌};
ghost use Rattle.terms.specs.declared.chip.MapChip.TheVariants.{Esp32};
ghost use Rattle.terms.specs.Refusal.{answered};
ghost use Rattle.inputs.specs.Input.{fields_refusal, decoding_refusal};
ghost use Rattle.esp32.specs.Characterize.{basis_refusal};
ghost use Rattle.esp32.specs.Decode.{basis_of, source_of, found_of, record_from, decode_of};

use crate::characterize::{Basis, Setting};
use crate::code;
use inputs::input::check_decoding;
use line_record::record::{LineRecord, Source};
use maps::value::record_value;
use terms::chip::MapChip;
use terms::refusal::Refusal;
use vref::coefficients::Coefficients;

// Where an ESP32 map has its fields, whose ids are from 1 to 6.
const ADC_VREF: usize = 0;

const BLK3_PART_RESERVE: usize = 1;

const ADC1_TP_LOW: usize = 2;

const ADC2_TP_LOW: usize = 3;

const ADC1_TP_HIGH: usize = 4;

const ADC2_TP_HIGH: usize = 5;

// What a record is made from: where a and b come from with the raw codes, the raw bits of ADC_VREF, and a and b.
#[derive(Clone, Copy)]
pub(crate) struct Found {
    pub(crate) basis: Basis,
    pub(crate) vref: u32,
    pub(crate) line: Coefficients,
}

// Where a unit's a and b come from. In esp-hal: `check_efuse_tp`.
#[tactic(auto, using(crate::proofs::Bases::no_reserve, crate::proofs::Bases::no_low1, crate::proofs::Bases::no_low2, crate::proofs::Bases::no_high1, crate::proofs::Bases::no_high2, crate::proofs::Bases::all_codes))]
fn basis(dump: &[u32], lengths: &[u8], map: &[u8], unit: u8) -> Basis
    requires { fields_refusal lengths.now Esp32 dump.now map.now ≡ 0 }
    ensures { result ≡ basis_of dump.now map.now unit }
{
    if record_value(dump, lengths, map, BLK3_PART_RESERVE) != 1 {
        return Basis::Vref;
    }
    let low1 = record_value(dump, lengths, map, ADC1_TP_LOW);
    if low1 == 0 {
        return Basis::Vref;
    }
    let low2 = record_value(dump, lengths, map, ADC2_TP_LOW);
    if low2 == 0 {
        return Basis::Vref;
    }
    let high1 = record_value(dump, lengths, map, ADC1_TP_HIGH);
    if high1 == 0 {
        return Basis::Vref;
    }
    let high2 = record_value(dump, lengths, map, ADC2_TP_HIGH);
    if high2 == 0 {
        return Basis::Vref;
    }
    Basis::TwoPoint(
        code::by_unit(unit, low1, low2),
        code::by_unit(unit, high1, high2),
    )
}

// What the record of a unit at an attenuation is made from, where nothing handed in is refused; else 9.
#[tactic(auto, using(inputs::proofs::Inputs::decoding_good))]
fn find(dump: &[u32], lengths: &[u8], map: &[u8], unit: u8, atten: u8) -> Result<Found, Refusal>
    requires { decoding_refusal lengths.now Esp32 dump.now map.now unit atten ≡ 0 }
    ensures { result ≡ answered (basis_refusal unit atten (basis_of dump.now map.now unit)) (found_of dump.now map.now unit atten) }
{
    let basis = basis(dump, lengths, map, unit);
    let vref = record_value(dump, lengths, map, ADC_VREF);
    let line = Setting { unit, atten }.characterize(code::efuse_vref(vref), basis)?;
    Ok(Found { basis, vref, line })
}

// The source of a record whose a and b come from there: without the codes.
impl From<Basis> for Source {
    ghost from_gives = { λ basis source. source ≡ source_of basis };

    #[tactic(auto, unfolding(crate::specs::Decode::source_of))]
    fn from(basis: Basis) -> Source {
        match basis {
            Basis::TwoPoint(_, _) => Source::TwoPoint,
            Basis::Vref => Source::Vref,
        }
    }
}

// The record that is made from it.
fn record_from(found: Found, unit: u8, atten: u8) -> LineRecord
    requires { found.vref < 32 }
    ensures { result ≡ record_from found unit atten }
{
    let line = found.line;
    LineRecord {
        coeff_a: line.a,
        coeff_b: line.b,
        vref: code::efuse_vref(found.vref),
        unit,
        atten,
        source: Source::from(found.basis),
    }
}

// The line record of a unit at an attenuation, from a dump and its map. It passes `check_record`. Any dump, lengths, map, unit and
// attenuation are answered; refusals 1, 20, 7, then the map's, then 9.
#[tactic(auto, using(maps::proofs::Told::told_went_well, inputs::proofs::Inputs::decoding_good, crate::proofs::Bases::vref_fits, crate::proofs::Decoding::input_refused, crate::proofs::Decoding::basis_refused, crate::proofs::Decoding::found_good, crate::proofs::Decoding::decode_record), unfolding(crate::specs::Decode::found_of, crate::specs::Decode::decoded_record))]
pub fn decode(
    dump: &[u32],
    lengths: &[u8],
    map: &[u8],
    unit: u8,
    atten: u8,
) -> Result<LineRecord, Refusal>
    ensures { result ≡ decode_of lengths.now dump.now map.now unit atten }
{
    check_decoding(MapChip::Esp32, dump, lengths, map, unit, atten)?;
    let found = find(dump, lengths, map, unit, atten)?;
    Ok(record_from(found, unit, atten))
}
