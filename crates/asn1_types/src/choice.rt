// CHOICE.
ghost use Rattle.std.specs.Prelude.{◌≡◌, ◌≢◌, ℕ, IfOk, IfErr, MatchResult};
ghost use Rattle.asn1_blocks.specs.Tree.{shape};
ghost use Rattle.asn1_blocks.specs.View.{view};
ghost use Rattle.asn1_headers.specs.declared.error.ASN1EncodeErr.TheVariants.{OutOfMemory as no_memory};
ghost use Rattle.asn1_types.specs.declared.TypeErr.TheVariants.{Shape};

use crate::{Asn1Type, Asn1Write, TypeErr};
use asn1_blocks::block::ASN1Block;
use asn1_headers::error::ASN1EncodeErr;
use std::alloc::Global;
use std::marker::PhantomData;

/// A proof that no block is a value of both types. X.680 29.3 asks for different tags, and so mostly `cc` shows it.
pub trait Unlike<A: Asn1Type, B: Asn1Type> {
    /// The trees of the two differ.
    ghost unlike: { (x : A) (y : B) → A.tree x ≢ B.tree y };
}

/// A CHOICE of two types, of which the second may be a CHOICE again. `U` shows that the two are unlike.
///
/// ```rust
/// use asn1_types::{GeneralizedTime, Or, Unlike, UtcTime};
/// use jiff::civil::DateTime;
///
/// /// Time ::= CHOICE { utcTime UTCTime, generalTime GeneralizedTime }
/// pub type Time = Or<UtcTime, GeneralizedTime, Times>;
///
/// /// Shows that the two times are unlike.
/// #[derive(Drop)]
/// pub struct Times {}
///
/// impl Unlike<UtcTime, GeneralizedTime> for Times {
///     ghost unlike = { λ x y e. cc };
/// }
///
/// fn moment_of(time: &Time) -> DateTime {
///     match time {
///         Or::First(time) => time.moment,
///         Or::Second(time, _) => time.moment,
///     }
/// }
/// ```
#[derive(Drop)]
pub enum Or<A, B, U> {
    /// A value of the first type.
    First(A),
    /// A value of the second type.
    Second(B, PhantomData<U>),
}

impl<A: Asn1Type + Drop, B: Asn1Type, U: Unlike<A, B>> Asn1Type for Or<A, B, U> {
    ghost use Rattle.asn1_types.specs.ChoiceLaws.{or_tree, or-distinct};

    ghost tree = { or_tree A.tree B.tree };

    fn read(alloc: Global, block: &ASN1Block) -> Result<Or<A, B, U>, TypeErr> {
        match A::read(alloc, block) {
            Ok(value) => Ok(Or::First(value)),
            Err(TypeErr::OutOfMemory) => Err(TypeErr::OutOfMemory),
            Err(TypeErr::Shape(_)) => match B::read(alloc, block) {
                Ok(value) => Ok(Or::Second(value, PhantomData)),
                Err(e) => Err(e),
            },
        }
    }

    ghost distinct = { or-distinct A.tree B.tree A.distinct B.distinct U.unlike };
}

impl<A: Asn1Write + Drop, B: Asn1Write, U: Unlike<A, B>> Asn1Write for Or<A, B, U> {
    fn write(&self, alloc: Global) -> Result<ASN1Block, ASN1EncodeErr> {
        match self {
            Or::First(value) => value.write(alloc),
            Or::Second(value, _) => value.write(alloc),
        }
    }
}
