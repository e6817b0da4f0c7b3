// The record that a case begins with, and who it is handed to.
use capi::answer::SkvRefusal;
use capi_line::record::SkvLineRecord;
use line_record::record::LineRecord;
use replay::bytes;
use terms::refusal::Refusal;

// C's calls take any byte for the source; the library's own take one that there is.
#[derive(Clone, Copy)]
pub(crate) enum Handed {
    ToC(SkvLineRecord),
    ToLibrary(LineRecord),
}

// The record of a case, 16 bytes as C has it.
fn record_of(case: &[u8]) -> SkvLineRecord {
    SkvLineRecord {
        coeff_a: bytes::number32(case, 0),
        coeff_b: bytes::number32(case, 4),
        vref: bytes::number32(case, 8),
        unit: bytes::number8(case, 12),
        attenuation: bytes::number8(case, 13),
        source: bytes::number8(case, 14),
    }
}

// Whether all is the same whoever a case's record is handed to: C, and the library too where the byte names a source, 0 or 1.
pub(crate) fn same_by_both<S: Fn(Handed) -> bool>(case: &[u8], same: S) -> bool
    requires { S.IsAlwaysCallable same }
{
    let cal = record_of(case);
    same(Handed::ToC(cal))
        && match LineRecord::try_from(cal) {
            Ok(cal) => same(Handed::ToLibrary(cal)),
            Err(_) => 1 < cal.source,
        }
}

// What C is to be told of a refusal.
// Kept: written by hand, and not by capi's `From`, so that a fault of C's own conversion shows.
pub(crate) fn told_c(why: Refusal) -> SkvRefusal {
    SkvRefusal {
        number: why.number,
        record: why.record,
        place: why.place,
    }
}
