// The departures of octets from DER, each by the number of its rule.
ghost use Rattle.std.specs.Prelude.{◌≡◌, ◌↔◌, [], IfErr, IfOk};
ghost use Rattle.asn1_der.specs.Departures.{AreDepartures};
ghost use Rattle.asn1_der.specs.Der.{IsDer};
ghost use Rattle.asn1_records.specs.Departures.{IsNoEncodings, rule_number};
ghost use Rattle.asn1_records.specs.Room.{OrNoMemory};

use crate::document_entries::{Fault, fault_at};
use crate::putting::Recorded;
use crate::record::DepartureRecord;
use simple_asn1::{Departure, Rule, departures};
use std::alloc::Global;

// The departures, or the fault of octets that are not encodings.
pub fn list_departures(alloc: Global, octets: &[u8]) -> Result<Vec<Departure>, Fault>
    ensures listed { IfOk result (λ found. AreDepartures octets.now found.items) }
    ensures none { IfOk result (λ found. (found.items ≡ []) ↔ IsDer octets.now) }
    ensures fault { IfErr result (λ f. OrNoMemory (IsNoEncodings octets.now) f.status f.offset) }
{
    match departures(alloc, octets) {
        Ok(found) => Ok(found),
        Err(located) => Err(fault_at(&located)),
    }
}

impl Recorded for Departure {
    ghost use Rattle.asn1_records.specs.Departures.{departure_record};

    type Record = DepartureRecord;

    ghost recorded = { departure_record };

    fn record(&self) -> DepartureRecord {
        DepartureRecord {
            offset: self.offset,
            rule: rule_number(self.rule),
        }
    }
}

// The number of a rule in simple_asn1.h.
fn rule_number(rule: Rule) -> u32
    ensures { result ≡ rule_number rule }
{
    match rule {
        Rule::LongIdentifier => 1,
        Rule::PaddedTag => 2,
        Rule::IndefiniteLength => 3,
        Rule::LongLength => 4,
        Rule::ReservedTag => 5,
        Rule::NotConstructed => 6,
        Rule::NotPrimitive => 7,
        Rule::ConstructedString => 8,
        Rule::BooleanSize => 9,
        Rule::BooleanValue => 10,
        Rule::NoInteger => 11,
        Rule::PaddedInteger => 12,
        Rule::BinaryReal => 13,
        Rule::DecimalReal => 14,
        Rule::SpecialReal => 15,
        Rule::UnusedCount => 16,
        Rule::UnusedOfNone => 17,
        Rule::UnusedBits => 18,
        Rule::NullContents => 19,
        Rule::Subidentifiers => 20,
        Rule::Iri => 21,
        Rule::Characters => 22,
        Rule::UtcTime => 23,
        Rule::GeneralizedTime => 24,
        Rule::Time => 25,
        Rule::Order => 26,
        Rule::NotEncodings => 27,
        Rule::External => 28,
        Rule::Identification => 29,
    }
}
