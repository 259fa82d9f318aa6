// Types of keys: AlgorithmIdentifier and SubjectPublicKeyInfo of RFC 5280, and OneAsymmetricKey of RFC 5958, which
// PKCS #8 is.
use asn1_types::{
    Any, BitString, End, Field, ImplicitOctets, Last, LastFields, Named, OctetString, Optional,
    Sequence,
};
use simple_asn1::{ASN1Block, ASN1EncodeErr, BigInt, OID};
use std::alloc::Global;

/// AlgorithmIdentifier ::= SEQUENCE { algorithm OBJECT IDENTIFIER, parameters ANY OPTIONAL } (RFC 5280, 4.1.1.2)
#[derive(Drop)]
pub struct AlgorithmIdentifier {
    pub algorithm: OID,
    pub parameters: Option<Any>,
}

type AlgorithmParts = Sequence<Field<OID, Optional<Any, End<0>, Last>>>;

impl Named for AlgorithmIdentifier {
    ghost use Rattle.std.proofs.Common.{ap};

    type Parts = AlgorithmParts;

    ghost parts = { λ x. record {
      fields = record {
        first = x.algorithm;
        rest = record { first = x.parameters; rest = record {}; apart = record {} };
      };
    } };

    fn from_parts(all: AlgorithmParts) -> AlgorithmIdentifier {
        let Sequence {
            fields: Field {
                first: algorithm,
                rest,
            },
        } = all;
        let Optional {
            first: parameters,
            ..
        } = rest;
        AlgorithmIdentifier {
            algorithm,
            parameters,
        }
    }

    fn write_named(&self, alloc: Global) -> Result<ASN1Block, ASN1EncodeErr> {
        let fields = LastFields::none(alloc).preceded_by_optional(alloc, &self.parameters)?;
        Ok(fields.preceded_by(alloc, &self.algorithm)?.sequence())
    }

    ghost same = { λ x y e. ap (λ p. record { algorithm = p.fields.first; parameters = p.fields.rest.first }) e };
}

/// SubjectPublicKeyInfo ::= SEQUENCE { algorithm AlgorithmIdentifier, subjectPublicKey BIT STRING } (RFC 5280, 4.1)
#[derive(Drop)]
pub struct SubjectPublicKeyInfo {
    pub algorithm: AlgorithmIdentifier,
    pub subject_public_key: BitString,
}

type PublicKeyParts = Sequence<Field<AlgorithmIdentifier, Field<BitString, End<0>>>>;

impl Named for SubjectPublicKeyInfo {
    ghost use Rattle.std.proofs.Common.{ap};

    type Parts = PublicKeyParts;

    ghost parts = { λ x. record {
      fields = record {
        first = x.algorithm;
        rest = record { first = x.subject_public_key; rest = record {} };
      };
    } };

    fn from_parts(all: PublicKeyParts) -> SubjectPublicKeyInfo {
        let Sequence {
            fields: Field {
                first: algorithm,
                rest,
            },
        } = all;
        let Field {
            first: subject_public_key,
            ..
        } = rest;
        SubjectPublicKeyInfo {
            algorithm,
            subject_public_key,
        }
    }

    fn write_named(&self, alloc: Global) -> Result<ASN1Block, ASN1EncodeErr> {
        let fields = LastFields::none(alloc).preceded_by(alloc, &self.subject_public_key)?;
        Ok(fields.preceded_by(alloc, &self.algorithm)?.sequence())
    }

    ghost same = { λ x y e. ap (λ p. record {
      algorithm = p.fields.first;
      subject_public_key = p.fields.rest.first;
    }) e };
}

/// OneAsymmetricKey ::= SEQUENCE { version INTEGER, privateKeyAlgorithm AlgorithmIdentifier, privateKey OCTET STRING,
/// publicKey [1] IMPLICIT BIT STRING OPTIONAL } (RFC 5958, 2). A key with attributes is not read.
#[derive(Drop)]
pub struct OneAsymmetricKey {
    pub version: BigInt,
    pub private_key_algorithm: AlgorithmIdentifier,
    pub private_key: OctetString,
    pub public_key: Option<ImplicitOctets<1>>,
}

type PrivateKeyParts = Sequence<
    Field<
        BigInt,
        Field<AlgorithmIdentifier, Field<OctetString, Optional<ImplicitOctets<1>, End<0>, Last>>>,
    >,
>;

impl Named for OneAsymmetricKey {
    ghost use Rattle.std.proofs.Common.{ap};

    type Parts = PrivateKeyParts;

    ghost parts = { λ x. record {
      fields = record {
        first = x.version;
        rest = record {
          first = x.private_key_algorithm;
          rest = record {
            first = x.private_key;
            rest = record { first = x.public_key; rest = record {}; apart = record {} };
          };
        };
      };
    } };

    fn from_parts(all: PrivateKeyParts) -> OneAsymmetricKey {
        let Sequence {
            fields: Field {
                first: version,
                rest,
            },
        } = all;
        let Field {
            first: private_key_algorithm,
            rest,
        } = rest;
        let Field {
            first: private_key,
            rest,
        } = rest;
        let Optional {
            first: public_key,
            ..
        } = rest;
        OneAsymmetricKey {
            version,
            private_key_algorithm,
            private_key,
            public_key,
        }
    }

    fn write_named(&self, alloc: Global) -> Result<ASN1Block, ASN1EncodeErr> {
        let fields = LastFields::none(alloc).preceded_by_optional(alloc, &self.public_key)?;
        let fields = fields.preceded_by(alloc, &self.private_key)?;
        let fields = fields.preceded_by(alloc, &self.private_key_algorithm)?;
        Ok(fields.preceded_by(alloc, &self.version)?.sequence())
    }

    ghost same = { λ x y e. ap (λ p. record {
      version = p.fields.first;
      private_key_algorithm = p.fields.rest.first;
      private_key = p.fields.rest.rest.first;
      public_key = p.fields.rest.rest.rest.first;
    }) e };
}
