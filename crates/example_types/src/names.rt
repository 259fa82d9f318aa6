// Types of certificates: Validity and Name of RFC 5280.
use asn1_types::{
    End, Field, GeneralizedTime, Ia5String, LastFields, Named, Or, PrintableString, Sequence,
    SequenceOf, SetOf, Unlike, UtcTime, Utf8String,
};
use simple_asn1::{ASN1Block, ASN1EncodeErr, OID};
use std::alloc::Global;

/// Time ::= CHOICE { utcTime UTCTime, generalTime GeneralizedTime } (RFC 5280, 4.1)
pub type Time = Or<UtcTime, GeneralizedTime, Times>;

/// Shows that the two times are unlike.
#[derive(Drop)]
pub struct Times {}

impl Unlike<UtcTime, GeneralizedTime> for Times {
    ghost unlike = { λ x y e. cc };
}

/// Validity ::= SEQUENCE { notBefore Time, notAfter Time } (RFC 5280, 4.1)
#[derive(Drop)]
pub struct Validity {
    pub not_before: Time,
    pub not_after: Time,
}

type ValidityParts = Sequence<Field<Time, Field<Time, End<0>>>>;

impl Named for Validity {
    ghost use Rattle.std.proofs.Common.{ap};

    type Parts = ValidityParts;

    ghost parts = { λ x. record {
      fields = record {
        first = x.not_before;
        rest = record { first = x.not_after; rest = record {} };
      };
    } };

    fn from_parts(all: ValidityParts) -> Validity {
        let Sequence { fields } = all;
        Validity {
            not_before: fields.first,
            not_after: fields.rest.first,
        }
    }

    fn write_named(&self, alloc: Global) -> Result<ASN1Block, ASN1EncodeErr> {
        let fields = LastFields::none(alloc).preceded_by(alloc, &self.not_after)?;
        Ok(fields.preceded_by(alloc, &self.not_before)?.sequence())
    }

    ghost same = { λ x y e. ap (λ p. record { not_before = p.fields.first; not_after = p.fields.rest.first }) e };
}

/// The strings that values of attributes mostly are (DirectoryString of RFC 5280, 4.1.2.4, and IA5String).
pub type AttributeValue = Or<Utf8String, Or<PrintableString, Ia5String, PrintableOrIa5>, Strings>;

/// Shows that a PrintableString is no IA5String.
#[derive(Drop)]
pub struct PrintableOrIa5 {}

impl Unlike<PrintableString, Ia5String> for PrintableOrIa5 {
    ghost unlike = { λ x y e. cc };
}

/// Shows that a UTF8String is neither.
#[derive(Drop)]
pub struct Strings {}

impl Unlike<Utf8String, Or<PrintableString, Ia5String, PrintableOrIa5>> for Strings {
    ghost use Rattle.asn1_types.specs.declared.choice.Or.TheVariants.{First, Second};

    ghost unlike = { λ x. elim [ First y ↦ λ e. cc | Second y u ↦ λ e. cc ] };
}

/// AttributeTypeAndValue ::= SEQUENCE { type OBJECT IDENTIFIER, value ANY } (RFC 5280, 4.1.2.4). Of the values only the
/// strings above are read.
#[derive(Drop)]
pub struct AttributeTypeAndValue {
    pub attribute_type: OID,
    pub value: AttributeValue,
}

type AttributeParts = Sequence<Field<OID, Field<AttributeValue, End<0>>>>;

impl Named for AttributeTypeAndValue {
    ghost use Rattle.std.proofs.Common.{ap};

    type Parts = AttributeParts;

    ghost parts = { λ x. record {
      fields = record {
        first = x.attribute_type;
        rest = record { first = x.value; rest = record {} };
      };
    } };

    fn from_parts(all: AttributeParts) -> AttributeTypeAndValue {
        let Sequence { fields } = all;
        AttributeTypeAndValue {
            attribute_type: fields.first,
            value: fields.rest.first,
        }
    }

    fn write_named(&self, alloc: Global) -> Result<ASN1Block, ASN1EncodeErr> {
        let fields = LastFields::none(alloc).preceded_by(alloc, &self.value)?;
        Ok(fields.preceded_by(alloc, &self.attribute_type)?.sequence())
    }

    ghost same = { λ x y e. ap (λ p. record { attribute_type = p.fields.first; value = p.fields.rest.first }) e };
}

/// Name, whose only alternative is SEQUENCE OF SET OF AttributeTypeAndValue (RFC 5280, 4.1.2.4)
pub type Name = SequenceOf<SetOf<AttributeTypeAndValue>>;
