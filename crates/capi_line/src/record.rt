// The line record.
ghost use Rattle.std.specs.Prelude.{◌≡◌, ok_or};
ghost use Rattle.terms.specs.Refusal.{plain, outcome_of};
ghost use Rattle.line_record.specs.Record.{record_refusal};
ghost use Rattle.capi.specs.Answer.{outcome_c};
ghost use Rattle.capi_line.specs.Record.{handed, by_record, record_c};

use capi::answer::SkvOutcome;
use line_record::record;
use line_record::record::{LineRecord, Source};
use terms::refusal;
use terms::refusal::{Refusal, plain};

const TWO_POINT: u8 = 0;

const VREF: u8 = 1;

// A line record; its source is `TWO_POINT` or `VREF`.
#[repr(C)]
#[derive(Clone, Copy, Debug, PartialEq, Eq)]
pub struct SkvLineRecord {
    pub coeff_a: u32,
    pub coeff_b: u32,
    pub vref: u32,
    pub unit: u8,
    pub attenuation: u8,
    pub source: u8,
}

// The record that C handed in, or 10 where its byte for the source names none, which comes before all else. Each call checks the rest.
#[tactic(auto, unfolding(crate::specs::Record::handed))]
impl TryFrom<SkvLineRecord> for LineRecord {
    type Error = Refusal;

    ghost try_from_gives = { λ cal line. line ≡ ok_or (handed cal) (plain 10) };

    fn try_from(cal: SkvLineRecord) -> Result<LineRecord, Refusal> {
        let source = match cal.source {
            TWO_POINT => Source::TwoPoint,
            VREF => Source::Vref,
            _ => return Err(plain(refusal::LINE_RECORD)),
        };
        Ok(LineRecord {
            coeff_a: cal.coeff_a,
            coeff_b: cal.coeff_b,
            vref: cal.vref,
            unit: cal.unit,
            atten: cal.attenuation,
            source,
        })
    }
}

// What C is given of a record.
impl From<LineRecord> for SkvLineRecord {
    ghost from_gives = { λ line cal. cal ≡ record_c line };

    fn from(cal: LineRecord) -> SkvLineRecord {
        SkvLineRecord {
            coeff_a: cal.coeff_a,
            coeff_b: cal.coeff_b,
            vref: cal.vref,
            unit: cal.unit,
            attenuation: cal.atten,
            source: match cal.source {
                Source::TwoPoint => TWO_POINT,
                Source::Vref => VREF,
            },
        }
    }
}

// Good where the record may be converted by. Refusal 10.
pub fn skv_check_record(cal: SkvLineRecord) -> SkvOutcome
    ensures { result ≡ outcome_c (by_record (handed cal) (λ line. outcome_of (record_refusal line)) (outcome_of 10)) }
{
    match LineRecord::try_from(cal) {
        Ok(cal) => record::check_record(cal).into(),
        Err(why) => SkvOutcome::from(Err(why)),
    }
}
