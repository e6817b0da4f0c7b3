// Filling a table.
ghost use Rattle.std.specs.Prelude.{◌≡◌, length};
ghost use Rattle.terms.specs.Refusal.{outcome_of};
ghost use Rattle.stretch.specs.Fill.{fill_refusal, filled};
ghost use Rattle.capi.specs.Answer.{outcome_c};
ghost use Rattle.capi_line.specs.Record.{handed, by_record};

use crate::record::SkvLineRecord;
use capi::answer::{SkvCount, SkvOutcome};
use line_record::record::LineRecord;
use stretch::fill;
use terms::quantity::Count;

// Writes the answers of the counts from a first one on, as many as the lent list has numbers. A refusal, 10, 11, leaves the list as it
// was.
pub fn skv_fill(cal: SkvLineRecord, first: SkvCount, out: &mut [u16]) -> SkvOutcome
    ensures answer { result ≡ outcome_c (by_record (handed cal) (λ line. outcome_of (fill_refusal line first.raw (length out.old))) (outcome_of 10)) }
    ensures lent { out.new ≡ by_record (handed cal) (λ line. filled line first.raw out.old) out.old }
{
    match LineRecord::try_from(cal) {
        Ok(cal) => fill::fill(cal, Count(first.raw), out).into(),
        Err(why) => SkvOutcome::from(Err(why)),
    }
}
