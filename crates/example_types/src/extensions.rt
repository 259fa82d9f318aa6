// The extensions of certificates, and the reason for which one is revoked, by RFC 5280.
use asn1_types::{
    Before, Defaulted, End, Enumerated, False, Field, LastFields, Named, OctetString, Sequence,
    SequenceOf, Unlike,
};
use simple_asn1::{ASN1Block, ASN1EncodeErr, OID};
use std::alloc::Global;

/// Extension ::= SEQUENCE { extnID OBJECT IDENTIFIER, critical BOOLEAN DEFAULT FALSE, extnValue OCTET STRING }
/// (RFC 5280, 4.1)
#[derive(Drop)]
pub struct Extension {
    pub extn_id: OID,
    pub critical: bool,
    pub extn_value: OctetString,
}

type ExtensionParts = Sequence<
    Field<OID, Defaulted<bool, Field<OctetString, End<0>>, Before<CriticalOrValue>, False>>,
>;

/// Shows that a BOOLEAN is no OCTET STRING.
#[derive(Drop)]
pub struct CriticalOrValue {}

impl Unlike<bool, OctetString> for CriticalOrValue {
    ghost unlike = { λ x y e. cc };
}

impl Named for Extension {
    ghost use Rattle.std.proofs.Common.{ap};

    type Parts = ExtensionParts;

    ghost parts = { λ x. record {
      fields = record {
        first = x.extn_id;
        rest = record {
          first = x.critical;
          rest = record { first = x.extn_value; rest = record {} };
          apart = record {};
          default = record {};
        };
      };
    } };

    fn from_parts(all: ExtensionParts) -> Extension {
        let Sequence {
            fields: Field {
                first: extn_id,
                rest,
            },
        } = all;
        let Defaulted {
            first: critical,
            rest,
            ..
        } = rest;
        let Field {
            first: extn_value,
            ..
        } = rest;
        Extension {
            extn_id,
            critical,
            extn_value,
        }
    }

    fn write_named(&self, alloc: Global) -> Result<ASN1Block, ASN1EncodeErr> {
        let fields = LastFields::none(alloc).preceded_by(alloc, &self.extn_value)?;
        let fields = fields.preceded_by_defaulted::<bool, False>(alloc, &self.critical)?;
        Ok(fields.preceded_by(alloc, &self.extn_id)?.sequence())
    }

    ghost same = { λ x y e. ap (λ p. record {
      extn_id = p.fields.first;
      critical = p.fields.rest.first;
      extn_value = p.fields.rest.rest.first;
    }) e };
}

/// Extensions ::= SEQUENCE SIZE (1..MAX) OF Extension (RFC 5280, 4.1). An empty one is read, too.
pub type Extensions = SequenceOf<Extension>;

/// CRLReason ::= ENUMERATED (RFC 5280, 5.3.1). Numbers without a name are read, too.
pub type CrlReason = Enumerated;

/// The name of a reason (RFC 5280, 5.3.1); `None` where the number has none.
pub fn reason_name(reason: &CrlReason) -> Option<&'static str> {
    match reason.number.to_u64()? {
        0 => Some("unspecified"),
        1 => Some("keyCompromise"),
        2 => Some("cACompromise"),
        3 => Some("affiliationChanged"),
        4 => Some("superseded"),
        5 => Some("cessationOfOperation"),
        6 => Some("certificateHold"),
        8 => Some("removeFromCRL"),
        9 => Some("privilegeWithdrawn"),
        10 => Some("aACompromise"),
        _ => None,
    }
}
