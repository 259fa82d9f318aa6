//! Laws between DER by X.690, the rules that it breaks, and what `simple_asn1` reads and writes; and on what is signed
//! of a certificate by `asn1_certificate`. There is no code here: each law is a function that does nothing, and whose
//! contract is proved.
#![tactic(auto)]

mod laws;

pub use asn1_der::law_departures;
pub use laws::{
    law_certificate_is_signed, law_der_is_canonical, law_der_is_read, law_written_is_der,
};
