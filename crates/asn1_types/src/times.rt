// The two types of time.
ghost use Rattle.std.specs.Prelude.{◌≡◌, ◌≢◌, ℕ, IfOk, IfErr, MatchResult};
ghost use Rattle.asn1_blocks.specs.Tree.{shape, leaf, utc_time, generalized_time};
ghost use Rattle.asn1_blocks.specs.View.{view};
ghost use Rattle.asn1_headers.specs.declared.error.ASN1EncodeErr.TheVariants.{OutOfMemory as no_memory};
ghost use Rattle.asn1_types.specs.declared.TypeErr.TheVariants.{Shape};
ghost use Rattle.asn1_types.specs.Laws.{utc_time-distinct, generalized_time-distinct};

use crate::{Asn1Type, Asn1Write, TypeErr};
use asn1_blocks::block::ASN1Block;
use asn1_headers::error::ASN1EncodeErr;
use jiff::civil::DateTime;
use std::alloc::Global;
use std::marker::Model;

/// A UTCTime (X.690 8.25, 11.8). A value comes back where its moment is a whole second of the years 1950 to 2049.
///
/// ```rust
/// use asn1_types::{UtcTime, Whole, WholeErr};
/// use jiff::civil::DateTime;
/// use simple_asn1::der_decode;
/// use std::alloc::Global;
///
/// // Of `17 0D` and `920521000000Z` 1992-05-21 00:00:00.
/// fn moment(alloc: Global, document: &[u8]) -> Result<DateTime, WholeErr> {
///     let read: Whole<UtcTime> = der_decode(alloc, document)?;
///     Ok(read.value.moment)
/// }
/// ```
#[derive(Debug, Drop)]
pub struct UtcTime {
    /// Its moment, of UTC.
    pub moment: DateTime,
}

impl Model for UtcTime {
    ghost use Rattle.asn1_leaves.specs.Contents.Moment.{Moment, moment_of};

    ghost Value = { Moment };

    ghost view = { λ x. moment_of x.moment };
}

impl Asn1Type for UtcTime {
    ghost tree = { λ x. leaf tt (utc_time x) };

    fn read(_alloc: Global, block: &ASN1Block) -> Result<UtcTime, TypeErr> {
        match block {
            ASN1Block::UTCTime(_, moment) => Ok(UtcTime { moment: *moment }),
            _ => Err(TypeErr::Shape(block.offset())),
        }
    }

    ghost distinct = { utc_time-distinct };
}

impl Asn1Write for UtcTime {
    fn write(&self, _alloc: Global) -> Result<ASN1Block, ASN1EncodeErr> {
        Ok(ASN1Block::UTCTime(0, self.moment))
    }
}

/// A GeneralizedTime (X.690 8.25, 11.7). A value comes back where its year is from 0 to 9999.
///
/// ```rust
/// use asn1_types::{GeneralizedTime, Whole, WholeErr};
/// use jiff::civil::DateTime;
/// use simple_asn1::der_encode;
/// use std::alloc::Global;
///
/// // 2050-01-01 00:00:00 is written as `18 0F` and `20500101000000Z`.
/// fn not_after(alloc: Global, moment: DateTime) -> Result<Vec<u8>, WholeErr> {
///     der_encode(alloc, &Whole { value: GeneralizedTime { moment } })
/// }
/// ```
#[derive(Debug, Drop)]
pub struct GeneralizedTime {
    /// Its moment, of UTC.
    pub moment: DateTime,
}

impl Model for GeneralizedTime {
    ghost use Rattle.asn1_leaves.specs.Contents.Moment.{Moment, moment_of};

    ghost Value = { Moment };

    ghost view = { λ x. moment_of x.moment };
}

impl Asn1Type for GeneralizedTime {
    ghost tree = { λ x. leaf tt (generalized_time x) };

    fn read(_alloc: Global, block: &ASN1Block) -> Result<GeneralizedTime, TypeErr> {
        match block {
            ASN1Block::GeneralizedTime(_, moment) => Ok(GeneralizedTime { moment: *moment }),
            _ => Err(TypeErr::Shape(block.offset())),
        }
    }

    ghost distinct = { generalized_time-distinct };
}

impl Asn1Write for GeneralizedTime {
    fn write(&self, _alloc: Global) -> Result<ASN1Block, ASN1EncodeErr> {
        Ok(ASN1Block::GeneralizedTime(0, self.moment))
    }
}
