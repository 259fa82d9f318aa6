// The rules of DER, and departures from them.
ghost use Rattle.std.specs.Prelude.{◌≡◌};
ghost use Rattle.asn1_der.specs.Rules.{section_of, text_of};

use std::fmt;

/// A rule of DER that an encoding may break.
#[derive(Clone, Copy, Debug, Drop, PartialEq)]
pub enum Rule {
    /// A tag number below 31 is in one byte.
    LongIdentifier,
    /// A tag number of 31 or more is in the fewest bytes.
    PaddedTag,
    /// A length has the definite form.
    IndefiniteLength,
    /// A length is in the fewest bytes.
    LongLength,
    /// A tag of class Universal is that of a type.
    ReservedTag,
    /// A SEQUENCE, SET, EXTERNAL, EMBEDDED PDV or CHARACTER STRING is constructed.
    NotConstructed,
    /// Any other type that is no string is primitive.
    NotPrimitive,
    /// A string is primitive.
    ConstructedString,
    /// A BOOLEAN has one byte.
    BooleanSize,
    /// A BOOLEAN is `00` or `FF`.
    BooleanValue,
    /// An INTEGER or ENUMERATED has some bytes.
    NoInteger,
    /// The first nine bits of an INTEGER or ENUMERATED are not alike.
    PaddedInteger,
    /// A binary REAL has the base 2, no scaling, an odd mantissa, and the fewest bytes.
    BinaryReal,
    /// A decimal REAL has the form NR3 of ISO 6093 without spare characters.
    DecimalReal,
    /// A special REAL is one of the bytes `40` to `43`.
    SpecialReal,
    /// A BIT STRING begins with a number of unused bits from 0 to 7.
    UnusedCount,
    /// A BIT STRING without bits has no unused bits.
    UnusedOfNone,
    /// The unused bits of a BIT STRING are 0.
    UnusedBits,
    /// A NULL has no bytes.
    NullContents,
    /// An OBJECT IDENTIFIER or RELATIVE-OID has one subidentifier or more, each whole and in the fewest bytes.
    Subidentifiers,
    /// An OID-IRI or RELATIVE-OID-IRI is labels with solidi between them, before which an OID-IRI has one more.
    Iri,
    /// A string has only characters of its type.
    Characters,
    /// A UTCTime is YYMMDDhhmmssZ of a moment that exists.
    UtcTime,
    /// A GeneralizedTime is YYYYMMDDhhmmss of a moment that exists, perhaps a fraction that does not end in 0, and Z.
    GeneralizedTime,
    /// A DATE, TIME-OF-DAY, DATE-TIME or DURATION is one, and a TIME has its characters in an order that there is.
    Time,
    /// The items of a SET ascend by their tags or by their bytes.
    Order,
    /// The contents of a constructed encoding are encodings.
    NotEncodings,
    /// An EXTERNAL has one reference or both, perhaps a descriptor, and an encoding.
    External,
    /// An EMBEDDED PDV or CHARACTER STRING has an identification and a value.
    Identification,
}

impl Rule {
    /// The name of the rule: that of its variant, for programs that write or keep it. It stays the same.
    ///
    /// ```rust
    /// use simple_asn1::Departure;
    ///
    /// // Which rule is broken: by `01 01 2A` "BooleanValue".
    /// fn name(departure: &Departure) -> &'static str {
    ///     departure.rule.name()
    /// }
    /// ```
    pub fn name(self) -> &'static str {
        match self {
            Rule::LongIdentifier => "LongIdentifier",
            Rule::PaddedTag => "PaddedTag",
            Rule::IndefiniteLength => "IndefiniteLength",
            Rule::LongLength => "LongLength",
            Rule::ReservedTag => "ReservedTag",
            Rule::NotConstructed => "NotConstructed",
            Rule::NotPrimitive => "NotPrimitive",
            Rule::ConstructedString => "ConstructedString",
            Rule::BooleanSize => "BooleanSize",
            Rule::BooleanValue => "BooleanValue",
            Rule::NoInteger => "NoInteger",
            Rule::PaddedInteger => "PaddedInteger",
            Rule::SpecialReal => "SpecialReal",
            Rule::BinaryReal => "BinaryReal",
            Rule::DecimalReal => "DecimalReal",
            Rule::UnusedCount => "UnusedCount",
            Rule::UnusedOfNone => "UnusedOfNone",
            Rule::UnusedBits => "UnusedBits",
            Rule::NullContents => "NullContents",
            Rule::Subidentifiers => "Subidentifiers",
            Rule::Iri => "Iri",
            Rule::Characters => "Characters",
            Rule::UtcTime => "UtcTime",
            Rule::GeneralizedTime => "GeneralizedTime",
            Rule::Time => "Time",
            Rule::Order => "Order",
            Rule::NotEncodings => "NotEncodings",
            Rule::External => "External",
            Rule::Identification => "Identification",
        }
    }

    /// The clauses that say the rule: of X.690, unless X.680 is named.
    ///
    /// ```rust
    /// use simple_asn1::Departure;
    ///
    /// // Where to read what is wrong: of `01 01 2A` "8.2.2, 11.1".
    /// fn clauses(departure: &Departure) -> &'static str {
    ///     departure.rule.section()
    /// }
    /// ```
    pub fn section(self) -> &'static str
        ensures { result.now ≡ section_of self }
    {
        match self {
            Rule::LongIdentifier => "8.1.2.2",
            Rule::PaddedTag => "8.1.2.4.2",
            Rule::IndefiniteLength => "8.1.3.2, 10.1",
            Rule::LongLength => "10.1",
            Rule::ReservedTag => "X.680 8.4",
            Rule::NotConstructed => "8.9.1, 8.11.1, 8.17, 8.18, 8.24",
            Rule::NotPrimitive => "8.2.1, 8.3.1, 8.5.1, 8.8.1, 8.19.1, 8.20.1, 8.21, 8.22, 8.26",
            Rule::ConstructedString => "10.2",
            Rule::BooleanSize => "8.2.1",
            Rule::BooleanValue => "8.2.2, 11.1",
            Rule::NoInteger => "8.3.1",
            Rule::PaddedInteger => "8.3.2",
            Rule::SpecialReal => "8.5.9",
            Rule::BinaryReal => "8.5.7, 11.3.1",
            Rule::DecimalReal => "8.5.8, 11.3.2",
            Rule::UnusedCount => "8.6.2.2",
            Rule::UnusedOfNone => "8.6.2.3",
            Rule::UnusedBits => "11.2.1",
            Rule::NullContents => "8.8.2",
            Rule::Subidentifiers => "8.19.2, 8.20.2",
            Rule::Iri => "8.21, 8.22",
            Rule::Characters => "8.23, X.680 41",
            Rule::UtcTime => "11.8",
            Rule::GeneralizedTime => "11.7",
            Rule::Time => "8.26",
            Rule::Order => "10.3, 11.6",
            Rule::NotEncodings => "8.9.2, 8.10.2, 8.11.2, 8.12.2, 8.14",
            Rule::External => "8.18",
            Rule::Identification => "8.17, 8.24",
        }
    }

    /// What is wrong where the rule is broken, in a few words, which `Display` writes too.
    ///
    /// ```rust
    /// use simple_asn1::Departure;
    ///
    /// // What is wrong: of `01 01 2A` "BOOLEAN neither 00 nor FF".
    /// fn fault(departure: &Departure) -> &'static str {
    ///     departure.rule.text()
    /// }
    /// ```
    pub fn text(self) -> &'static str
        ensures { result.now ≡ text_of self }
    {
        match self {
            Rule::LongIdentifier => "tag number below 31 in more than one byte",
            Rule::PaddedTag => "tag number not in the fewest bytes",
            Rule::IndefiniteLength => "indefinite length",
            Rule::LongLength => "length not in the fewest bytes",
            Rule::ReservedTag => "reserved tag",
            Rule::NotConstructed => "primitive, but the type is constructed",
            Rule::NotPrimitive => "constructed, but the type is primitive",
            Rule::ConstructedString => "string in pieces",
            Rule::BooleanSize => "BOOLEAN not of one byte",
            Rule::BooleanValue => "BOOLEAN neither 00 nor FF",
            Rule::NoInteger => "number without bytes",
            Rule::PaddedInteger => "number not in the fewest bytes",
            Rule::SpecialReal => "special REAL that there is not",
            Rule::BinaryReal => "binary REAL not in its one form",
            Rule::DecimalReal => "decimal REAL not in its one form",
            Rule::UnusedCount => "no number of unused bits from 0 to 7",
            Rule::UnusedOfNone => "unused bits of no bits",
            Rule::UnusedBits => "unused bits not 0",
            Rule::NullContents => "NULL with contents",
            Rule::Subidentifiers => "subidentifiers missing, cut off or not in the fewest bytes",
            Rule::Iri => "no internationalized resource identifier",
            Rule::Characters => "characters that the type does not have",
            Rule::UtcTime => "not YYMMDDhhmmssZ of a moment that exists",
            Rule::GeneralizedTime => "not YYYYMMDDhhmmss[.f]Z of a moment that exists",
            Rule::Time => "no date or time of the type",
            Rule::Order => "SET out of order",
            Rule::NotEncodings => "contents that are not encodings",
            Rule::External => "not a reference and an encoding",
            Rule::Identification => "not an identification and a value",
        }
    }
}

/// Writes [`Rule::text`].
impl fmt::Display for Rule {
    fn fmt<W: fmt::Write>(&self, f: &mut fmt::Formatter<W>) -> fmt::Result {
        write!(f, "{}", self.text())
    }
}

/// A rule that an encoding breaks.
#[derive(Clone, Copy, Debug, Drop, PartialEq)]
pub struct Departure {
    /// Where the encoding begins, in bytes from the start of the input.
    pub offset: usize,
    /// The rule.
    pub rule: Rule,
}
