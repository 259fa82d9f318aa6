// Types of one's own, which the tests of conversions read and write.
ghost use Rattle.std.specs.Prelude.{◌≡◌, ◌⊎◌, ℕ, Ok, Err, MatchResult};
ghost use Rattle.simple_asn1.specs.Grammar.{IsDocument};
ghost use Rattle.simple_asn1.specs.Tree.{Trees, no_trees, shapes};

use simple_asn1::{
    ASN1Block, ASN1Class, ASN1DecodeErr, ASN1EncodeErr, FromASN1, RoundTrip, ToASN1, from_der,
};
use std::alloc::Global;

// A value that has no blocks.
#[derive(Debug, Drop, PartialEq)]
pub struct Nothing {}

#[derive(Debug, Drop, PartialEq)]
pub enum NothingErr {
    Decode(ASN1DecodeErr),
    Encode(ASN1EncodeErr),
}

impl From<ASN1DecodeErr> for NothingErr {
    ghost use Rattle.test_library.specs.declared.types.NothingErr.TheVariants.{Decode};

    ghost from_gives = { λ f e. e ≡ Decode f };

    fn from(e: ASN1DecodeErr) -> NothingErr {
        NothingErr::Decode(e)
    }
}

impl From<ASN1EncodeErr> for NothingErr {
    ghost use Rattle.test_library.specs.declared.types.NothingErr.TheVariants.{Encode};

    ghost from_gives = { λ f e. e ≡ Encode f };

    fn from(e: ASN1EncodeErr) -> NothingErr {
        NothingErr::Encode(e)
    }
}

impl FromASN1 for Nothing {
    type Error = NothingErr;

    ghost reads = { λ bs r. MatchResult r (λ x. x.1 ≡ bs) (λ e. ⊥) };

    fn from_asn1<'a>(
        _alloc: Global,
        v: &'a [ASN1Block],
    ) -> Result<(Nothing, &'a [ASN1Block]), NothingErr> {
        Ok((Nothing {}, v))
    }
}

impl ToASN1 for Nothing {
    type Error = NothingErr;

    ghost writes = { λ x c r. MatchResult r (λ bs. shapes bs ≡ no_trees) (λ e. ⊥) };

    fn to_asn1_class(&self, alloc: Global, _c: ASN1Class) -> Result<Vec<ASN1Block>, NothingErr> {
        Ok(Vec::new(alloc))
    }
}

impl RoundTrip for Nothing {
    ghost use Rattle.test_library.specs.Nothing.{nothing_read_back};
    ghost use Rattle.std.proofs.Common.{refl};

    ghost trees_of = { λ x. no_trees };

    ghost written = { λ x bs h. h };

    ghost read_back = { nothing_read_back (λ x y. refl) };
}

// The blocks of a document.
#[derive(Debug, Drop)]
pub struct Encoded {
    pub octets: Vec<u8>,
}

impl ToASN1 for Encoded {
    type Error = NothingErr;

    ghost writes = { λ x c r. MatchResult r (λ bs. IsDocument x.octets.items bs) (λ e. Unit {0}) };

    fn to_asn1_class(&self, alloc: Global, _c: ASN1Class) -> Result<Vec<ASN1Block>, NothingErr> {
        match from_der(alloc, &self.octets) {
            Ok(blocks) => Ok(blocks),
            Err(e) => Err(NothingErr::Decode(e)),
        }
    }
}

// Two values of a type, one after the other.
#[derive(Debug, Drop, PartialEq)]
pub struct Pair<T> {
    pub first: T,
    pub second: T,
}

impl<T: FromASN1 + Drop> FromASN1 for Pair<T> {
    type Error = <T as FromASN1>::Error;

    ghost reads = { λ bs r. MatchResult r
        (λ x. (mid : Trees ℕ) × T.reads bs (Ok (x.0.first, mid)) × T.reads mid (Ok (x.0.second, x.1)))
        (λ e. T.reads bs (Err e) ⊎ ((a : T) × (mid : Trees ℕ) × T.reads bs (Ok (a, mid))
        × T.reads mid (Err e))) };

    fn from_asn1<'a>(
        alloc: Global,
        v: &'a [ASN1Block],
    ) -> Result<(Pair<T>, &'a [ASN1Block]), <T as FromASN1>::Error> {
        let (first, after) = match T::from_asn1(alloc, v) {
            Ok(read) => read,
            Err(e) => return Err(e),
        };
        match T::from_asn1(alloc, after) {
            Ok((second, rest)) => Ok((Pair { first, second }, rest)),
            Err(e) => Err(e),
        }
    }
}
