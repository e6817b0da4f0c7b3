// Reading a field.
ghost use Rattle.std.specs.Prelude.{◌≡◌};
ghost use Rattle.terms.specs.Refusal.{outcome_of};
ghost use Rattle.efuse.specs.Field.{read_refusal, read_of, bytes_read};
ghost use Rattle.capi.specs.Answer.{outcome_c};
ghost use Rattle.capi_fields.specs.Field.{field_from, read_c};

use capi::answer::{SkvOutcome, SkvRefusal, parts};
use efuse::field;
use efuse::field::EfuseField;
use terms::refusal::Refusal;

// The bits bit_start to bit_start + bit_count - 1 of a block.
#[repr(C)]
#[derive(Clone, Copy, Debug, PartialEq, Eq)]
pub struct SkvField {
    pub block: u8,
    pub bit_start: u16,
    pub bit_count: u16,
}

// A field's value, or why it wasn't read.
#[repr(C)]
#[derive(Clone, Copy, Debug, PartialEq, Eq)]
pub struct SkvRead {
    pub refusal: SkvRefusal,
    pub value: u32,
}

// The field that C handed in.
impl From<SkvField> for EfuseField {
    ghost from_gives = { λ handed field. field ≡ field_from handed };

    fn from(field: SkvField) -> EfuseField {
        EfuseField {
            block: field.block,
            bit_start: field.bit_start,
            bit_count: field.bit_count,
        }
    }
}

// What C is given of a reading.
impl From<Result<u32, Refusal>> for SkvRead {
    ghost from_gives = { λ read told. told ≡ read_c read };

    fn from(read: Result<u32, Refusal>) -> SkvRead {
        let (refusal, value) = parts(read, 0);
        SkvRead { refusal, value }
    }
}

// Kept: C has a call for each width, by its own name.

// Reads a field at 8 bits. Refusals 1, 20, 4, 5.
#[unsafe(no_mangle)]
pub extern "C" fn skv_read_field_u8(dump: &[u32], lengths: &[u8], field: SkvField) -> SkvRead
    ensures { result ≡ read_c (read_of 8 lengths.now dump.now (field_from field)) }
{
    field::read_field::<8>(dump, lengths, field.into()).into()
}

// The same at 16 bits.
#[unsafe(no_mangle)]
pub extern "C" fn skv_read_field_u16(dump: &[u32], lengths: &[u8], field: SkvField) -> SkvRead
    ensures { result ≡ read_c (read_of 16 lengths.now dump.now (field_from field)) }
{
    field::read_field::<16>(dump, lengths, field.into()).into()
}

// The same at 32 bits.
#[unsafe(no_mangle)]
pub extern "C" fn skv_read_field_u32(dump: &[u32], lengths: &[u8], field: SkvField) -> SkvRead
    ensures { result ≡ read_c (read_of 32 lengths.now dump.now (field_from field)) }
{
    field::read_field::<32>(dump, lengths, field.into()).into()
}

// Reads a field into the lent bytes, low first; all of them are written. A refusal, 1, 20, 4, 5, leaves them as they were.
#[unsafe(no_mangle)]
pub extern "C" fn skv_read_field_le(
    dump: &[u32],
    lengths: &[u8],
    field: SkvField,
    bytes: &mut [u8],
) -> SkvOutcome
    ensures answer { result ≡ outcome_c (outcome_of (read_refusal lengths.now dump.now (field_from field))) }
    ensures lent { bytes.new ≡ bytes_read lengths.now dump.now (field_from field) bytes.old }
{
    field::read_field_le(dump, lengths, field.into(), bytes).into()
}
