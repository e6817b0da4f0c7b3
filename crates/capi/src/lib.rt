// What the exports for C share: the structs of their answers, and what makes them. The exports stand by part in capi_fields, capi_line,
// capi_s2, capi_c6, capi_curve and capi_samples; include/suongkivat.h declares each. An export hands its arguments to the library's own
// call, and gives what that answered as a struct: document 01's number, and its values, zeros beside a refusal.
#![tactic(auto)]

pub mod answer;
