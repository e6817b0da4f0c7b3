// ESP32 line calibration for C: decoding a record, checking it, converting and filling by it. The crate capi_line_c exports these calls; here
// they are Rattle's to call too.
// Kept: each call has the name and the parameters that include/suongkivat.h declares.
#![tactic(auto)]

pub mod convert;
pub mod decode;
pub mod fill;
pub mod record;
