// The private key of RSA, by RFC 8017.
use asn1_types::{End, Field, Fields4, Last, LastFields, Named, Optional, Sequence, SequenceOf};
use simple_asn1::{ASN1Block, ASN1EncodeErr, BigInt};
use std::alloc::Global;

/// OtherPrimeInfo ::= SEQUENCE { prime INTEGER, exponent INTEGER, coefficient INTEGER } (RFC 8017, A.1.2)
#[derive(Drop)]
pub struct OtherPrimeInfo {
    pub prime: BigInt,
    pub exponent: BigInt,
    pub coefficient: BigInt,
}

type OtherPrimeParts = Sequence<Field<BigInt, Field<BigInt, Field<BigInt, End<0>>>>>;

impl Named for OtherPrimeInfo {
    ghost use Rattle.std.proofs.Common.{ap};

    type Parts = OtherPrimeParts;

    ghost parts = { λ x. record {
      fields = record {
        first = x.prime;
        rest = record { first = x.exponent; rest = record { first = x.coefficient; rest = record {} } };
      };
    } };

    fn from_parts(all: OtherPrimeParts) -> OtherPrimeInfo {
        let Sequence { fields } = all;
        OtherPrimeInfo {
            prime: fields.first,
            exponent: fields.rest.first,
            coefficient: fields.rest.rest.first,
        }
    }

    fn write_named(&self, alloc: Global) -> Result<ASN1Block, ASN1EncodeErr> {
        let fields = LastFields::none(alloc).preceded_by(alloc, &self.coefficient)?;
        let fields = fields.preceded_by(alloc, &self.exponent)?;
        Ok(fields.preceded_by(alloc, &self.prime)?.sequence())
    }

    ghost same = { λ x y e. ap (λ p. record {
      prime = p.fields.first;
      exponent = p.fields.rest.first;
      coefficient = p.fields.rest.rest.first;
    }) e };
}

/// RSAPrivateKey ::= SEQUENCE { version INTEGER, modulus INTEGER, publicExponent INTEGER, privateExponent INTEGER,
/// prime1 INTEGER, prime2 INTEGER, exponent1 INTEGER, exponent2 INTEGER, coefficient INTEGER, otherPrimeInfos SEQUENCE
/// OF OtherPrimeInfo OPTIONAL } (RFC 8017, A.1.2). Whether the version says that there are other primes is not looked
/// at.
#[derive(Drop)]
pub struct RsaPrivateKey {
    pub version: BigInt,
    pub modulus: BigInt,
    pub public_exponent: BigInt,
    pub private_exponent: BigInt,
    pub prime1: BigInt,
    pub prime2: BigInt,
    pub exponent1: BigInt,
    pub exponent2: BigInt,
    pub coefficient: BigInt,
    pub other_prime_infos: Option<SequenceOf<OtherPrimeInfo>>,
}

type RsaParts = Sequence<
    Fields4<
        BigInt,
        BigInt,
        BigInt,
        BigInt,
        Fields4<
            BigInt,
            BigInt,
            BigInt,
            BigInt,
            Field<BigInt, Optional<SequenceOf<OtherPrimeInfo>, End<0>, Last>>,
        >,
    >,
>;

impl Named for RsaPrivateKey {
    ghost use Rattle.std.proofs.Common.{ap};

    type Parts = RsaParts;

    ghost parts = { λ x. record {
      fields = record {
        first = x.version;
        second = x.modulus;
        third = x.public_exponent;
        fourth = x.private_exponent;
        rest = record {
          first = x.prime1;
          second = x.prime2;
          third = x.exponent1;
          fourth = x.exponent2;
          rest = record {
            first = x.coefficient;
            rest = record { first = x.other_prime_infos; rest = record {}; apart = record {} };
          };
        };
      };
    } };

    fn from_parts(all: RsaParts) -> RsaPrivateKey {
        let Sequence { fields } = all;
        let Fields4 {
            first: version,
            second: modulus,
            third: public_exponent,
            fourth: private_exponent,
            rest,
        } = fields;
        let Fields4 {
            first: prime1,
            second: prime2,
            third: exponent1,
            fourth: exponent2,
            rest,
        } = rest;
        let Field {
            first: coefficient,
            rest,
        } = rest;
        let Optional {
            first: other_prime_infos,
            ..
        } = rest;
        RsaPrivateKey {
            version,
            modulus,
            public_exponent,
            private_exponent,
            prime1,
            prime2,
            exponent1,
            exponent2,
            coefficient,
            other_prime_infos,
        }
    }

    fn write_named(&self, alloc: Global) -> Result<ASN1Block, ASN1EncodeErr> {
        let fields = LastFields::none(alloc).preceded_by_optional(alloc, &self.other_prime_infos)?;
        let fields = fields.preceded_by(alloc, &self.coefficient)?;
        let fields = fields.preceded_by(alloc, &self.exponent2)?;
        let fields = fields.preceded_by(alloc, &self.exponent1)?;
        let fields = fields.preceded_by(alloc, &self.prime2)?;
        let fields = fields.preceded_by(alloc, &self.prime1)?;
        let fields = fields.preceded_by(alloc, &self.private_exponent)?;
        let fields = fields.preceded_by(alloc, &self.public_exponent)?;
        let fields = fields.preceded_by(alloc, &self.modulus)?;
        Ok(fields.preceded_by(alloc, &self.version)?.sequence())
    }

    ghost same = { λ x y e. ap (λ p. record {
      version = p.fields.first;
      modulus = p.fields.second;
      public_exponent = p.fields.third;
      private_exponent = p.fields.fourth;
      prime1 = p.fields.rest.first;
      prime2 = p.fields.rest.second;
      exponent1 = p.fields.rest.third;
      exponent2 = p.fields.rest.fourth;
      coefficient = p.fields.rest.rest.first;
      other_prime_infos = p.fields.rest.rest.rest.first;
    }) e };
}
