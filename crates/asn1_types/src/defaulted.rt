// Fields with a default.
ghost use Rattle.std.specs.Prelude.{◌≡◌, ◌≢◌, ℕ, Bool, true, not, IfOk, IfErr, MatchOption, MatchResult};
ghost use Rattle.asn1_blocks.specs.Tree.{shapes};
ghost use Rattle.asn1_blocks.specs.View.{views};
ghost use Rattle.asn1_headers.specs.declared.error.ASN1EncodeErr.TheVariants.{OutOfMemory as no_memory};
ghost use Rattle.asn1_types.specs.FieldTrees.{optional_trees, unless_default};
ghost use Rattle.asn1_types.specs.LastFieldTrees.{written_trees};
ghost use Rattle.asn1_types.specs.declared.TypeErr.TheVariants.{Shape};

use crate::{
    Apart, Asn1Type, Asn1Write, Explicit, Fields, LastFields, Optional, TypeErr, WriteFields,
};
use asn1_blocks::block::ASN1Block;
use asn1_headers::error::ASN1EncodeErr;
use asn1_numbers::number::big_int::BigInt;
use std::alloc::{AllocError, Global};
use std::marker::PhantomData;

/// The default of a field of the type `T`.
pub trait DefaultOf<T> {
    /// Whether a value is the default.
    ghost is_default: { T → Bool };

    /// Whether a value is the default.
    fn is_default(value: &T) -> bool
        ensures { result ≡ is_default value.now };

    /// Makes the default.
    fn make(alloc: Global) -> Result<T, AllocError>
        ensures { IfOk result (λ x. is_default x ≡ true) };

    /// Only one value is the default.
    ghost only: { (x y : T) → is_default x ≡ true → is_default y ≡ true → x ≡ y };
}

/// `DEFAULT FALSE`.
#[derive(Drop)]
pub struct False {}

impl DefaultOf<bool> for False {
    ghost use Rattle.asn1_types.specs.DefaultLaws.{false-only};

    ghost is_default = { not };

    fn is_default(value: &bool) -> bool {
        !*value
    }

    fn make(_alloc: Global) -> Result<bool, AllocError> {
        Ok(false)
    }

    ghost only = { false-only };
}

/// `DEFAULT` and a natural number.
#[derive(Drop)]
pub struct Natural<const N: u64> {}

impl<const N: u64> DefaultOf<BigInt> for Natural<N> {
    ghost use Rattle.asn1_types.specs.DefaultLaws.{is_natural, natural-only};

    ghost is_default = { is_natural N };

    fn is_default(value: &BigInt) -> bool {
        match value.to_u64() {
            Some(number) => number == N,
            None => false,
        }
    }

    fn make(alloc: Global) -> Result<BigInt, AllocError> {
        BigInt::from_u64(alloc, N)
    }

    ghost only = { natural-only N };
}

/// The default of a type is also that of the type under an explicit tag.
impl<T, D: DefaultOf<T>, const N: u64> DefaultOf<Explicit<T, N>> for D {
    ghost use Rattle.asn1_types.specs.DefaultLaws.{explicit-only};

    ghost is_default = { λ x. D.is_default x.value };

    fn is_default(value: &Explicit<T, N>) -> bool {
        D::is_default(&value.value)
    }

    fn make(alloc: Global) -> Result<Explicit<T, N>, AllocError> {
        let value = D::make(alloc)?;
        Ok(Explicit { value })
    }

    ghost only = { explicit-only D.is_default D.only };
}

/// A field that is left out where it has its default, as `DEFAULT` says, and those after it. `A` shows that the field
/// is apart from those after it, as for [`Optional`], and `D` says what the default is.
///
/// In DER the default is never there (X.690 11.5). So a value comes back, and blocks with the default written out are
/// not of the type.
///
/// ```rust
/// use asn1_types::{Apart, Defaulted, End, False, Sequence, Whole, WholeErr};
/// use simple_asn1::der_decode;
/// use std::alloc::Global;
///
/// /// SEQUENCE { cA BOOLEAN DEFAULT FALSE }
/// type Constraints = Sequence<Defaulted<bool, End<0>, NothingAfter, False>>;
///
/// /// Shows that nothing stands behind the BOOLEAN.
/// #[derive(Drop)]
/// pub struct NothingAfter {}
///
/// impl Apart<bool, End<0>> for NothingAfter {
///     ghost apart = { λ x y rest. λ e. cc };
/// }
///
/// // Whether a certificate may issue others: by `30 03 01 01 FF` it may, by `30 00` not. `30 03 01 01 00` is an error.
/// fn may_issue(alloc: Global, octets: &[u8]) -> Result<bool, WholeErr> {
///     let read: Whole<Constraints> = der_decode(alloc, octets)?;
///     Ok(read.value.fields.first)
/// }
/// ```
#[derive(Drop)]
pub struct Defaulted<T, R, A, D> {
    /// The field.
    pub first: T,
    /// Those after it.
    pub rest: R,
    /// Names `A`.
    pub apart: PhantomData<A>,
    /// Names `D`.
    pub default: PhantomData<D>,
}

// The value of a field of which this was read. None is the default, and the default itself is none.
fn value_of<T: Drop, D: DefaultOf<T>>(
    alloc: Global,
    read: Option<T>,
) -> Result<Option<T>, AllocError>
    ensures { IfOk result (λ found. MatchOption found
        ((x : T) → unless_default D.is_default x ≢ read)
        (λ x. unless_default D.is_default x ≡ read)) }
{
    let Some(value) = read else {
        return Ok(Some(D::make(alloc)?));
    };
    if D::is_default(&value) {
        Ok(None)
    } else {
        Ok(Some(value))
    }
}

// The offset of the first block, or of the one that holds it.
fn first_place(place: usize, blocks: &[ASN1Block]) -> usize {
    match blocks.first() {
        None => place,
        Some(first) => first.offset(),
    }
}

impl<T: Asn1Type + Drop, R: Fields + Drop, A: Apart<T, R>, D: DefaultOf<T>> Fields
    for Defaulted<T, R, A, D> {
    ghost use Rattle.asn1_types.specs.FieldLaws.{defaulted-distinct};

    ghost trees = { λ x. optional_trees T.tree R.trees (unless_default D.is_default x.first) x.rest };

    fn read_fields(
        alloc: Global,
        place: usize,
        blocks: &[ASN1Block],
    ) -> Result<Defaulted<T, R, A, D>, TypeErr> {
        let all = match <Optional<T, R, A> as Fields>::read_fields(alloc, place, blocks) {
            Ok(all) => all,
            Err(e) => return Err(e),
        };
        let Optional { first, rest, .. } = all;
        match value_of::<T, D>(alloc, first)? {
            Some(first) => Ok(Defaulted {
                first,
                rest,
                apart: PhantomData,
                default: PhantomData,
            }),
            None => Err(TypeErr::Shape(first_place(place, blocks))),
        }
    }

    ghost distinct_fields = { defaulted-distinct T.tree R.trees T.distinct R.distinct_fields A.apart D.is_default
        D.only };
}

impl<T: Asn1Write + Drop, R: WriteFields + Drop, A: Apart<T, R>, D: DefaultOf<T>> WriteFields
    for Defaulted<T, R, A, D> {
    fn write_fields(&self, alloc: Global) -> Result<LastFields, ASN1EncodeErr> {
        let rest = self.rest.write_fields(alloc)?;
        rest.preceded_by_defaulted::<T, D>(alloc, &self.first)
    }
}
