// Proofs that a field which may be missing is apart from those after it, put together of proofs that types are unlike.
ghost use Rattle.std.specs.Prelude.{◌≢◌};
ghost use Rattle.asn1_blocks.specs.Tree.{Trees, more_trees};

use crate::{Apart, Asn1Type, End, Field, Fields, Fields4, Optional, Unlike};
use std::marker::PhantomData;

/// Shows that a field which may be missing is the last one.
#[derive(Drop)]
pub struct Last {}

impl<T: Asn1Type, const N: u64> Apart<T, End<N>> for Last {
    ghost apart = { λ x y rest. λ e. cc };
}

/// Shows that a field which may be missing is apart from the next one, which is always there: `U` shows that the two
/// are unlike.
#[derive(Drop)]
pub struct Before<U> {
    /// Names `U`.
    pub unlike: PhantomData<U>,
}

impl<T: Asn1Type, S: Asn1Type + Drop, R: Fields + Drop, U: Unlike<T, S>> Apart<T, Field<S, R>>
    for Before<U> {
    ghost use Rattle.asn1_types.specs.FieldLaws.{field-apart};

    ghost apart = { λ x y rest. field-apart T.tree S.tree U.unlike x y.first (R.trees y.rest) rest };
}

impl<
    T: Asn1Type,
    S: Asn1Type + Drop,
    B: Asn1Type + Drop,
    C: Asn1Type + Drop,
    D: Asn1Type + Drop,
    R: Fields + Drop,
    U: Unlike<T, S>,
> Apart<T, Fields4<S, B, C, D, R>> for Before<U> {
    ghost use Rattle.asn1_types.specs.FieldLaws.{field-apart};

    ghost apart = { λ x y rest. field-apart T.tree S.tree U.unlike x y.first _ rest };
}

/// Shows that a field which may be missing is apart from the next one, which may be missing too: `U` shows that the two
/// are unlike, and `V` that the first is apart from those after the second.
///
/// ```rust
/// use asn1_types::{BeforeOptional, End, ImplicitOctets, Last, Optional, Sequence, Unlike};
///
/// /// SEQUENCE { issuer [1] IMPLICIT OCTET STRING OPTIONAL, subject [2] IMPLICIT OCTET STRING OPTIONAL }
/// pub type Ids = Sequence<
///     Optional<
///         ImplicitOctets<1>,
///         Optional<ImplicitOctets<2>, End<0>, Last>,
///         BeforeOptional<IssuerOrSubject, Last>,
///     >,
/// >;
///
/// /// Shows that the two tags are unlike.
/// #[derive(Drop)]
/// pub struct IssuerOrSubject {}
///
/// impl Unlike<ImplicitOctets<1>, ImplicitOctets<2>> for IssuerOrSubject {
///     ghost unlike = { λ x y e. cc };
/// }
/// ```
#[derive(Drop)]
pub struct BeforeOptional<U, V> {
    /// Names `U`.
    pub unlike: PhantomData<U>,
    /// Names `V`.
    pub apart: PhantomData<V>,
}

impl<
    T: Asn1Type,
    S: Asn1Type + Drop,
    R: Fields + Drop,
    A: Apart<S, R>,
    U: Unlike<T, S>,
    V: Apart<T, R>,
> Apart<T, Optional<S, R, A>> for BeforeOptional<U, V> {
    ghost use Rattle.asn1_types.specs.FieldLaws.{optional-apart};

    ghost apart = { λ x y rest. optional-apart T.tree S.tree R.trees U.unlike V.apart x y.first y.rest rest };
}
