// Laws of the list of departures.
ghost use Rattle.asn1_der.specs.Laws.{OneListOfDepartures};

/// A law, with no code. Octets have at most one list of departures, and at most one first header at fault. They do not
/// have both, if there are any octets. DER has no header at fault, so that `departures` never rejects it for one.
///
/// ```rust
/// use simple_asn1::{Departure, LocatedErr, departures};
/// use std::alloc::Global;
///
/// // By the law, both lists have the same departures: octets have one list alone.
/// fn twice(
///     alloc: Global,
///     document: &[u8],
/// ) -> Result<(Vec<Departure>, Vec<Departure>), LocatedErr> {
///     Ok((departures(alloc, document)?, departures(alloc, document)?))
/// }
/// ```
pub fn law_departures()
    ensures { OneListOfDepartures }
{}
