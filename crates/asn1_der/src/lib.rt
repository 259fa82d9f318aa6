//! Which octets are DER (X.690), whatever their types, and also where the library reads something else; and which rules
//! other octets break, and where.
//!
//! [`is_der`] goes over the octets by their headers, in a loop. `specs/Der` says what it answers, with `Contents`,
//! `Times`, `Iri`, `Real`, `Padding` and `External` for the contents octets of each type.
//!
//! [`departures`] lists the rules that are broken in the order of their offsets, in a loop over the headers, too.
//! `specs/Departures` says what the list has, by `Rules`, which has the clauses of the standard and the rule that each
//! encoding breaks. [`broken_rules`] is for a caller that goes over the headers itself: what one encoding breaks.
#![tactic(auto)]

mod components;
mod contents;
mod der;
mod encodings;
mod external;
mod header_rules;
mod iri;
mod laws;
mod listing;
mod order;
mod own;
mod padding;
mod real;
mod rule;
mod single;
mod times;

pub use der::is_der;
pub use laws::law_departures;
pub use listing::departures;
pub use rule::{Departure, Rule};
pub use single::broken_rules;
