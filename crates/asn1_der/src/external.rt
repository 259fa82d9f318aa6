// What an EXTERNAL, an EMBEDDED PDV and a CHARACTER STRING hold (X.690 8.17, 8.18, 8.24).
ghost use Rattle.std.specs.Prelude.{◌≡◌};
ghost use Rattle.asn1_der.specs.External.{are_syntaxes as are_syntaxes_is, begins_with as begins_with_is, behind_optional as behind_optional_is, is_external as is_external_is, is_external_choice as is_external_choice_is, is_external_encoding as is_external_encoding_is, is_identification as is_identification_is, is_identification_choice as is_identification_choice_is, is_identified as is_identified_is, is_negotiation as is_negotiation_is, is_second_identifier as is_second_identifier_is};

use crate::components::{front_component, is_alone};
use crate::contents::{are_subidentifiers, is_bit_string};
use crate::padding::is_padded_number;

// The leading octets of an OBJECT IDENTIFIER, an INTEGER and an ObjectDescriptor.
const IDENTIFIER: u8 = 0x06;

const NUMBER: u8 = 0x02;

const DESCRIPTOR: u8 = 0x07;

// Leading octets with context-specific tags, of primitive encodings and of constructed ones.
const TAG_0: u8 = 0x80;

const TAG_1: u8 = 0x81;

const TAG_2: u8 = 0x82;

const TAG_4: u8 = 0x84;

const TAG_5: u8 = 0x85;

const AROUND_0: u8 = 0xA0;

const AROUND_3: u8 = 0xA3;

// Whether contents octets are those of an EXTERNAL.
#[tactic(auto, unfolding(crate::specs::External::is_external))]
pub fn is_external(octets: &[u8]) -> bool
    ensures { result ≡ is_external_is octets.now }
{
    if !begins_with(IDENTIFIER, octets) && !begins_with(NUMBER, octets) {
        return false;
    }
    let behind_references = behind_optional(NUMBER, behind_optional(IDENTIFIER, octets));
    is_external_encoding(behind_optional(DESCRIPTOR, behind_references))
}

fn begins_with(leading: u8, octets: &[u8]) -> bool
    ensures { result ≡ begins_with_is leading octets.now }
{
    match front_component(octets) {
        Some(component) => component.leading == leading,
        None => false,
    }
}

// What follows a component that may be left out.
fn behind_optional(leading: u8, octets: &[u8]) -> &[u8]
    ensures { result.now ≡ behind_optional_is leading octets.now }
{
    match front_component(octets) {
        Some(component) if component.leading == leading => component.behind,
        _ => octets,
    }
}

fn is_external_encoding(octets: &[u8]) -> bool
    ensures { result ≡ is_external_encoding_is octets.now }
{
    match front_component(octets) {
        Some(component) => {
            component.behind.is_empty() && is_external_choice(component.leading, component.contents)
        }
        None => false,
    }
}

fn is_external_choice(leading: u8, contents: &[u8]) -> bool
    ensures { result ≡ is_external_choice_is leading contents.now }
{
    match leading {
        AROUND_0 => is_alone(contents),
        TAG_1 => true,
        TAG_2 => is_bit_string(contents),
        _ => false,
    }
}

// Whether contents octets are those of an EMBEDDED PDV or CHARACTER STRING.
#[tactic(auto, unfolding(crate::specs::External::is_identified))]
pub fn is_identified(octets: &[u8]) -> bool
    ensures { result ≡ is_identified_is octets.now }
{
    match front_component(octets) {
        Some(component) => {
            component.leading == AROUND_0
                && is_identification(component.contents)
                && is_alone(component.behind)
                && begins_with(TAG_2, component.behind)
        }
        None => false,
    }
}

fn is_identification(octets: &[u8]) -> bool
    ensures { result ≡ is_identification_is octets.now }
{
    match front_component(octets) {
        Some(component) => {
            component.behind.is_empty()
                && is_identification_choice(component.leading, component.contents)
        }
        None => false,
    }
}

fn is_identification_choice(leading: u8, contents: &[u8]) -> bool
    ensures { result ≡ is_identification_choice_is leading contents.now }
{
    match leading {
        AROUND_0 => are_syntaxes(contents),
        TAG_1 | TAG_4 => are_subidentifiers(contents),
        TAG_2 => !is_padded_number(contents),
        AROUND_3 => is_negotiation(contents),
        TAG_5 => contents.is_empty(),
        _ => false,
    }
}

#[tactic(auto, unfolding(crate::specs::External::are_syntaxes))]
fn are_syntaxes(octets: &[u8]) -> bool
    ensures { result ≡ are_syntaxes_is octets.now }
{
    match front_component(octets) {
        Some(component) => {
            component.leading == TAG_0
                && are_subidentifiers(component.contents)
                && is_second_identifier(component.behind)
        }
        None => false,
    }
}

#[tactic(auto, unfolding(crate::specs::External::is_negotiation))]
fn is_negotiation(octets: &[u8]) -> bool
    ensures { result ≡ is_negotiation_is octets.now }
{
    match front_component(octets) {
        Some(component) => {
            component.leading == TAG_0
                && !is_padded_number(component.contents)
                && is_second_identifier(component.behind)
        }
        None => false,
    }
}

fn is_second_identifier(octets: &[u8]) -> bool
    ensures { result ≡ is_second_identifier_is octets.now }
{
    match front_component(octets) {
        Some(component) => {
            component.behind.is_empty()
                && component.leading == TAG_1
                && are_subidentifiers(component.contents)
        }
        None => false,
    }
}
