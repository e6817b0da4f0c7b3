// ESP32 line calibration for C: the exports of the calls of capi_line, each with the clauses of the call that it hands on.
// Kept: each call has the name and the parameters that include/suongkivat.h declares.
#![tactic(auto)]

ghost use Rattle.std.specs.Prelude.{◌≡◌, Err, length};
ghost use Rattle.terms.specs.Refusal.{plain, outcome_of};
ghost use Rattle.line_record.specs.Record.{record_refusal};
ghost use Rattle.line.specs.Convert.{convert_of};
ghost use Rattle.stretch.specs.Fill.{fill_refusal, filled};
ghost use Rattle.esp32.specs.Decode.{decode_of};
ghost use Rattle.capi.specs.Answer.{outcome_c, voltage_c};
ghost use Rattle.capi_line.specs.Decode.{decoded_c};
ghost use Rattle.capi_line.specs.Record.{handed, by_record};

use capi::answer::{SkvCount, SkvOutcome, SkvVoltage};
use capi_line::decode::SkvDecoded;
use capi_line::record::SkvLineRecord;
use capi_line::{convert, decode, fill, record};

// The line record of a unit at an attenuation, from a dump and its map. Refusals 1, 20, 7, the map's, 9.
#[unsafe(no_mangle)]
pub extern "C" fn skv_decode(
    dump: &[u32],
    lengths: &[u8],
    map: &[u8],
    unit: u8,
    atten: u8,
) -> SkvDecoded
    ensures { result ≡ decoded_c (decode_of lengths.now dump.now map.now unit atten) }
{
    decode::skv_decode(dump, lengths, map, unit, atten)
}

// Good where the record may be converted by. Refusal 10.
#[unsafe(no_mangle)]
pub extern "C" fn skv_check_record(cal: SkvLineRecord) -> SkvOutcome
    ensures { result ≡ outcome_c (by_record (handed cal) (λ line. outcome_of (record_refusal line)) (outcome_of 10)) }
{
    record::skv_check_record(cal)
}

// The millivolts of a count. Refusals 10, 8.
#[unsafe(no_mangle)]
pub extern "C" fn skv_convert(cal: SkvLineRecord, count: SkvCount) -> SkvVoltage
    ensures { result ≡ voltage_c (by_record (handed cal) (λ line. convert_of line count.raw) (Err (plain 10))) }
{
    convert::skv_convert(cal, count)
}

// Writes the answers of the counts from a first one on, as many as the lent list has numbers. A refusal, 10, 11, leaves the list as it
// was.
#[unsafe(no_mangle)]
pub extern "C" fn skv_fill(cal: SkvLineRecord, first: SkvCount, out: &mut [u16]) -> SkvOutcome
    ensures answer { result ≡ outcome_c (by_record (handed cal) (λ line. outcome_of (fill_refusal line first.raw (length out.old))) (outcome_of 10)) }
    ensures lent { out.new ≡ by_record (handed cal) (λ line. filled line first.raw out.old) out.old }
{
    fill::skv_fill(cal, first, out)
}
