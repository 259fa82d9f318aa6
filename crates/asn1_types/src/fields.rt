// The fields of a SEQUENCE or SET, one after another.
ghost use Rattle.std.specs.Prelude.{◌≡◌, ◌≢◌, ℕ, IfOk, IfErr, MatchResult, MatchOption};
ghost use Rattle.asn1_blocks.specs.Tree.{Trees, shapes, no_trees, more_trees};
ghost use Rattle.asn1_blocks.specs.View.{views};
ghost use Rattle.asn1_headers.specs.declared.error.ASN1EncodeErr.TheVariants.{OutOfMemory as no_memory};
ghost use Rattle.asn1_types.specs.declared.TypeErr.TheVariants.{Shape};
ghost use Rattle.asn1_types.specs.FieldTrees.{optional_trees};
ghost use Rattle.asn1_types.specs.LastFieldTrees.{written_trees};

use crate::{Asn1Type, Asn1Write, LastFields, TypeErr};
use asn1_blocks::block::ASN1Block;
use asn1_headers::error::ASN1EncodeErr;
use std::alloc::{AllocError, Global};
use std::marker::PhantomData;

/// The fields of a SEQUENCE or SET, or those from one of them on.
pub trait Fields: Sized {
    /// The trees of the values.
    ghost trees: { Self → Trees (Unit {0}) };

    /// Reads the values that all these blocks are. `place` is the offset of the block that holds them.
    ///
    /// # Errors
    /// `Shape` exactly where the blocks are not these fields; `OutOfMemory`.
    fn read_fields(alloc: Global, place: usize, blocks: &[ASN1Block]) -> Result<Self, TypeErr>
        ensures { MatchResult result
            (λ x. shapes (views blocks.now) ≡ trees x)
            (λ e. (at : ℕ) → e ≡ Shape at → (x : Self) → shapes (views blocks.now) ≢ trees x) };

    /// No two values have the same trees.
    ghost distinct_fields: { (x y : Self) → trees x ≡ trees y → x ≡ y };
}

/// Fields that are written.
pub trait WriteFields: Fields {
    /// Makes the blocks of the fields. The only error is `OutOfMemory`.
    fn write_fields(&self, alloc: Global) -> Result<LastFields, ASN1EncodeErr>
        ensures made { IfOk result (λ fields. written_trees fields ≡ Self.Fields.trees self.now) }
        ensures refused { IfErr result (λ e. e ≡ no_memory) };
}

/// The end of the fields. The number means nothing; any will do.
#[derive(Debug, Drop)]
pub struct End<const N: u64> {}

impl<const N: u64> Fields for End<N> {
    ghost use Rattle.std.proofs.Common.{refl};

    ghost trees = { λ x. no_trees };

    fn read_fields(_alloc: Global, _place: usize, blocks: &[ASN1Block]) -> Result<End<N>, TypeErr> {
        match blocks.split_first() {
            None => Ok(End {}),
            Some((first, _)) => Err(TypeErr::Shape(first.offset())),
        }
    }

    ghost distinct_fields = { λ x y e. refl };
}

/// A field, and those after it.
///
/// ```rust
/// use asn1_types::{End, Field, OctetString, Sequence, Whole, WholeErr};
/// use simple_asn1::{BigInt, der_decode};
/// use std::alloc::Global;
///
/// /// SEQUENCE { salt OCTET STRING, count INTEGER }
/// type Token = Sequence<Field<OctetString, Field<BigInt, End<0>>>>;
///
/// // Of `30 07 04 02 CA FE 02 01 05` 5.
/// fn count(alloc: Global, octets: &[u8]) -> Result<BigInt, WholeErr> {
///     let token: Whole<Token> = der_decode(alloc, octets)?;
///     Ok(token.value.fields.rest.first)
/// }
/// ```
#[derive(Debug, Drop)]
pub struct Field<T, R> {
    /// The field.
    pub first: T,
    /// Those after it.
    pub rest: R,
}

impl<T: Asn1Type + Drop, R: Fields> Fields for Field<T, R> {
    ghost use Rattle.asn1_types.specs.FieldLaws.{field-distinct};

    ghost trees = { λ x. more_trees (T.tree x.first) (R.trees x.rest) };

    fn read_fields(
        alloc: Global,
        place: usize,
        blocks: &[ASN1Block],
    ) -> Result<Field<T, R>, TypeErr> {
        let Some((first, rest)) = blocks.split_first() else {
            return Err(TypeErr::Shape(place));
        };
        let first = match T::read(alloc, first) {
            Ok(first) => first,
            Err(e) => return Err(e),
        };
        match R::read_fields(alloc, place, rest) {
            Ok(rest) => Ok(Field { first, rest }),
            Err(e) => Err(e),
        }
    }

    ghost distinct_fields = { field-distinct T.tree R.trees T.distinct R.distinct_fields };
}

/// A proof that a field which may be missing cannot be taken for those after it: no tree of `T` begins the trees of
/// `R`. X.680 25.6 asks for different tags, and so mostly `cc` shows it.
pub trait Apart<T: Asn1Type, R: Fields> {
    /// The trees of `R` do not begin with one of `T`.
    ghost apart: { (x : T) (y : R) (rest : Trees (Unit {0})) → R.trees y ≢ more_trees (T.tree x) rest };
}

/// A field that may be missing, as `OPTIONAL` says, and those after it. `A` shows that the two are apart.
///
/// ```rust
/// use asn1_types::{Apart, End, Null, Optional, Sequence, Whole, WholeErr};
/// use simple_asn1::der_decode;
/// use std::alloc::Global;
///
/// /// SEQUENCE { NULL OPTIONAL }
/// type Maybe = Sequence<Optional<Null, End<0>, NothingAfter>>;
///
/// /// Shows that nothing stands behind the NULL.
/// #[derive(Drop)]
/// pub struct NothingAfter {}
///
/// impl Apart<Null, End<0>> for NothingAfter {
///     ghost apart = { λ x y rest. λ e. cc };
/// }
///
/// // Whether there is a NULL: in `30 02 05 00`, and not in `30 00`.
/// fn has_null(alloc: Global, octets: &[u8]) -> Result<bool, WholeErr> {
///     let maybe: Whole<Maybe> = der_decode(alloc, octets)?;
///     Ok(maybe.value.fields.first.is_some())
/// }
/// ```
#[derive(Drop)]
pub struct Optional<T, R, A> {
    /// The field.
    pub first: Option<T>,
    /// Those after it.
    pub rest: R,
    /// Names `A`.
    pub apart: PhantomData<A>,
}

// The value of the first block, and the blocks after it, if it is one of the type.
fn read_first<T: Asn1Type + Drop>(
    alloc: Global,
    blocks: &[ASN1Block],
) -> Result<Option<(T, &[ASN1Block])>, AllocError>
    ensures { IfOk result (λ found. MatchOption found
        ((x : T) (rest : Trees (Unit {0})) → shapes (views blocks.now) ≢ more_trees (T.tree x) rest)
        (λ p. shapes (views blocks.now) ≡ more_trees (T.tree p.0) (shapes (views p.1.now)))) }
{
    let Some((first, rest)) = blocks.split_first() else {
        return Ok(None);
    };
    match T::read(alloc, first) {
        Ok(first) => Ok(Some((first, rest))),
        Err(TypeErr::Shape(_)) => Ok(None),
        Err(TypeErr::OutOfMemory) => Err(AllocError),
    }
}

impl<T: Asn1Type + Drop, R: Fields, A: Apart<T, R>> Fields for Optional<T, R, A> {
    ghost use Rattle.asn1_types.specs.FieldLaws.{optional-distinct, optional-same};

    ghost trees = { λ x. optional_trees T.tree R.trees x.first x.rest };

    fn read_fields(
        alloc: Global,
        place: usize,
        blocks: &[ASN1Block],
    ) -> Result<Optional<T, R, A>, TypeErr> {
        match read_first::<T>(alloc, blocks)? {
            None => match R::read_fields(alloc, place, blocks) {
                Ok(rest) => Ok(Optional {
                    first: None,
                    rest,
                    apart: PhantomData,
                }),
                Err(e) => Err(e),
            },
            Some((first, after)) => match R::read_fields(alloc, place, after) {
                Ok(rest) => Ok(Optional {
                    first: Some(first),
                    rest,
                    apart: PhantomData,
                }),
                Err(e) => Err(e),
            },
        }
    }

    ghost distinct_fields = { λ x y e. optional-same x y (optional-distinct T.tree R.trees T.distinct R.distinct_fields
        A.apart x.first y.first x.rest y.rest e) };
}

impl<const N: u64> WriteFields for End<N> {
    fn write_fields(&self, alloc: Global) -> Result<LastFields, ASN1EncodeErr> {
        Ok(LastFields::none(alloc))
    }
}

impl<T: Asn1Write + Drop, R: WriteFields> WriteFields for Field<T, R> {
    fn write_fields(&self, alloc: Global) -> Result<LastFields, ASN1EncodeErr> {
        let rest = self.rest.write_fields(alloc)?;
        rest.preceded_by(alloc, &self.first)
    }
}

impl<T: Asn1Write + Drop, R: WriteFields, A: Apart<T, R>> WriteFields for Optional<T, R, A> {
    fn write_fields(&self, alloc: Global) -> Result<LastFields, ASN1EncodeErr> {
        let rest = self.rest.write_fields(alloc)?;
        rest.preceded_by_optional(alloc, &self.first)
    }
}
