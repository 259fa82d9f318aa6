// What one encoding breaks, by its header, whatever stands around it.
ghost use Rattle.std.specs.Prelude.{◌≡◌, ◌++◌, ◌+◌, ◌≤◌, IfOk, OnOk, length, slice_range};
ghost use Rattle.std.specs.Option.{option_to_list};
ghost use Rattle.asn1_headers.specs.Front.{IsAtFront};
ghost use Rattle.asn1_der.specs.Departures.{AreBroken, AreEncodings, Found, ItemsFound, is_looked_into as is_looked_into_is};
ghost use Rattle.asn1_der.specs.declared.rule.Rule.TheVariants.{NotEncodings};

use crate::encodings::are_encodings;
use crate::own::{identifier_found, length_found, type_found};
use crate::rule::Rule;
use asn1_blocks::parsed::PlacedHeader;
use asn1_headers::header::split_identifier;
use asn1_headers::indefinite::is_indefinite;
use asn1_headers::whole_header::Header;
use std::alloc::{AllocError, Global};

/// The rules of DER that the encoding at the front of the octets breaks, in the order of `departures`, which lists them
/// at its offset. What encodings inside it break is not among them. Its header was read, and it is whole; in the
/// indefinite form it has no contents octets here.
///
/// A SET, EXTERNAL, EMBEDDED PDV or CHARACTER STRING takes time for all that it holds, any other encoding for its own
/// contents octets and for the headers of its items. It takes memory as `is_der` does.
///
/// # Errors
/// Memory ran out.
pub fn broken_rules(alloc: Global, octets: &[u8], header: &Header) -> Result<Vec<Rule>, AllocError>
    requires front { IsAtFront octets.now header.now }
    requires whole { header.now.size + header.now.announced ≤ length octets.now }
    ensures { IfOk result (λ rules. (front : IsAtFront octets.now header.now) →
        AreBroken front.identifier front.len header.now.class header.now.constructed header.now.tag
        (slice_range octets.now header.now.size (header.now.size + header.now.announced)) rules.items) }
{
    let end = header.size + header.announced;
    let (identifier, len) = split_front(octets, header);
    let contents = &octets[header.size..end];
    let has_length_80 = is_indefinite(len);
    let placed = PlacedHeader {
        class: header.class,
        constructed: header.constructed,
        tag: header.tag.clone(alloc)?,
        identifier: identifier.len(),
        size: header.size,
        has_length_80,
        is_indefinite: header.constructed && has_length_80,
        start: header.size,
        end,
    };
    let of_type = type_found(alloc, &placed, contents)?;
    let mut rules = Vec::new(alloc);
    push_rule(identifier_found(&placed), &mut rules)?;
    push_rule(length_found(&placed), &mut rules)?;
    push_rule(of_type, &mut rules)?;
    push_rule(items_found(header.constructed, len, contents), &mut rules)?;
    Ok(rules)
}

fn push_rule(broken: Option<Rule>, rules: &mut Vec<Rule>) -> Result<(), AllocError>
    ensures { OnOk result (rules.new.items ≡ rules.old.items ++ option_to_list broken) }
{
    if let Some(rule) = broken {
        rules.push(rule)?;
    }
    Ok(())
}

// The identifier and the length octets at the front.
fn split_front<'a>(octets: &'a [u8], header: &Header) -> (&'a [u8], &'a [u8])
    requires { IsAtFront octets.now header.now }
    ensures { (front : IsAtFront octets.now header.now) →
        (result.0.now ≡ front.identifier) × (result.1.now ≡ front.len) }
{
    let (front, _) = octets.split_at(header.size);
    split_identifier(front)
}

// The rule that the contents octets of a constructed encoding of the definite form break if they are no encodings.
fn items_found(constructed: bool, len: &[u8], contents: &[u8]) -> Option<Rule>
    ensures { ItemsFound constructed len.now contents.now result }
{
    if is_looked_into(constructed, len) {
        encodings_found(contents)
    } else {
        None
    }
}

fn is_looked_into(constructed: bool, len: &[u8]) -> bool
    ensures { result ≡ is_looked_into_is constructed len.now }
{
    constructed && !is_indefinite(len)
}

fn encodings_found(contents: &[u8]) -> Option<Rule>
    ensures { Found (AreEncodings 0 contents.now) NotEncodings result }
{
    if are_encodings(contents) {
        None
    } else {
        Some(Rule::NotEncodings)
    }
}
