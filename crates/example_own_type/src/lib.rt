//! An example of a type of one's own: a name in a subjectAltName (RFC 5280, 4.2.1.6) of a kind that is a text.
#![tactic(auto)]

ghost use Rattle.asn1_types.specs.declared.choice.Or.TheVariants.{First, Second};
ghost use Rattle.example_own_type.specs.declared.GeneralName.TheVariants.{Email, Dns, Uri};

use asn1_types::{Asn1Write, ImplicitOctets, Named, Or, Unlike};
use simple_asn1::{ASN1Block, ASN1EncodeErr};
use std::alloc::Global;

/// A name, as the bytes of its IA5String.
#[derive(Debug, Drop)]
pub enum GeneralName {
    Email(ImplicitOctets<1>),
    Dns(ImplicitOctets<2>),
    Uri(ImplicitOctets<6>),
}

/// Shows that the tags differ.
#[derive(Drop)]
pub struct Tags {}

impl Unlike<ImplicitOctets<2>, ImplicitOctets<6>> for Tags {
    ghost unlike = { λ x y e. cc };
}

impl Unlike<ImplicitOctets<1>, Or<ImplicitOctets<2>, ImplicitOctets<6>, Tags>> for Tags {
    ghost unlike = { λ x. elim [ First y ↦ λ e. cc | Second y u ↦ λ e. cc ] };
}

impl Named for GeneralName {
    type Parts = Or<ImplicitOctets<1>, Or<ImplicitOctets<2>, ImplicitOctets<6>, Tags>, Tags>;

    ghost parts = { elim [
      | Email x ↦ First x
      | Dns x ↦ Second (First x) (record {})
      | Uri x ↦ Second (Second x (record {})) (record {})
    ] };

    fn from_parts(all: Self::Parts) -> GeneralName {
        match all {
            Or::First(name) => GeneralName::Email(name),
            Or::Second(Or::First(name), _) => GeneralName::Dns(name),
            Or::Second(Or::Second(name, _), _) => GeneralName::Uri(name),
        }
    }

    fn write_named(&self, alloc: Global) -> Result<ASN1Block, ASN1EncodeErr> {
        match self {
            GeneralName::Email(name) => name.write(alloc),
            GeneralName::Dns(name) => name.write(alloc),
            GeneralName::Uri(name) => name.write(alloc),
        }
    }

    ghost same = { elim [
      | Email x ↦ elim [ Email y ↦ λ e. cc | _ ↦ λ e. cc ]
      | _ ↦ elim [ Email y ↦ λ e. cc | _ ↦ λ e. cc ]
    ] };
}
