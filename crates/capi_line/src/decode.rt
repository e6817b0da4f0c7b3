// ESP32 decoding.
ghost use Rattle.std.specs.Prelude.{◌≡◌};
ghost use Rattle.esp32.specs.Decode.{decode_of};
ghost use Rattle.capi_line.specs.Decode.{decoded_c};

use crate::record::SkvLineRecord;
use capi::answer::SkvRefusal;
use esp32::decode;
use line_record::decoded::refusal_of;
use line_record::record::{LineRecord, Source};
use terms::refusal::Refusal;

// What stands in a record's place beside a refusal.
const NO_RECORD: LineRecord = LineRecord {
    coeff_a: 0,
    coeff_b: 0,
    vref: 0,
    unit: 0,
    atten: 0,
    source: Source::TwoPoint,
};

// A line record, or why there is none.
#[repr(C)]
#[derive(Clone, Copy, Debug, PartialEq, Eq)]
pub struct SkvDecoded {
    pub refusal: SkvRefusal,
    pub record: SkvLineRecord,
}

// What C is given of a decoding.
impl From<Result<LineRecord, Refusal>> for SkvDecoded {
    ghost from_gives = { λ decoded told. told ≡ decoded_c decoded };

    fn from(decoded: Result<LineRecord, Refusal>) -> SkvDecoded {
        SkvDecoded {
            refusal: refusal_of(decoded).into(),
            record: decoded.unwrap_or(NO_RECORD).into(),
        }
    }
}

// The line record of a unit at an attenuation, from a dump and its map. Refusals 1, 20, 7, the map's, 9.
pub fn skv_decode(dump: &[u32], lengths: &[u8], map: &[u8], unit: u8, atten: u8) -> SkvDecoded
    ensures { result ≡ decoded_c (decode_of lengths.now dump.now map.now unit atten) }
{
    decode::decode(dump, lengths, map, unit, atten).into()
}
