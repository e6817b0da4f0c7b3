// Converting a count.
ghost use Rattle.std.specs.Prelude.{◌≡◌, Err};
ghost use Rattle.terms.specs.Refusal.{plain};
ghost use Rattle.line.specs.Convert.{convert_of};
ghost use Rattle.capi_line.specs.Record.{handed, by_record};
ghost use Rattle.capi.specs.Answer.{voltage_c};

use crate::record::SkvLineRecord;
use capi::answer::{SkvCount, SkvVoltage};
use line::convert;
use line_record::record::LineRecord;
use terms::quantity::Count;

// The millivolts of a count. Refusals 10, 8.
pub fn skv_convert(cal: SkvLineRecord, count: SkvCount) -> SkvVoltage
    ensures { result ≡ voltage_c (by_record (handed cal) (λ line. convert_of line count.raw) (Err (plain 10))) }
{
    match LineRecord::try_from(cal) {
        Ok(cal) => convert::convert(cal, Count(count.raw)).into(),
        Err(why) => SkvVoltage::from(Err(why)),
    }
}
