// What a decoding is refused with.
ghost use Rattle.std.specs.Prelude.{◌≡◌};
ghost use Rattle.line_record.specs.Decoding.{decoding_refusal};

use crate::record::LineRecord;
use terms::refusal;
use terms::refusal::Refusal;

// The refusal of a decoding, as it is; its number is 0 where there is a record.
#[tactic(auto, unfolding(crate::specs::Decoding::decoding_refusal))]
pub fn refusal_of(decoded: Result<LineRecord, Refusal>) -> Refusal
    ensures { result ≡ decoding_refusal decoded }
{
    match decoded {
        Ok(_) => refusal::plain(refusal::NONE),
        Err(why) => why,
    }
}
