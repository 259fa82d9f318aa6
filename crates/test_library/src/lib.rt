//! Tests of `simple_asn1` through its public calls, of types of one's own, which generic code has to meet, and of a
//! document that is too large for a row of `checks/calls`. The values were worked out outside the library.
#![tactic(auto)]

#[cfg(test)]
mod convert;
#[cfg(test)]
mod documents;
#[cfg(test)]
mod helpers;
#[cfg(test)]
mod types;
