// Values of a SET OF in the order of their encodings.
ghost use Rattle.std.specs.Prelude.{◌≡◌, ◌⊎◌, None, Some, IfErr, IfOk, OnOk, map};
ghost use Rattle.std.specs.Cmp.Lexicographic.{slice_cmp};
ghost use Rattle.std.specs.Ordering.{nat_cmp};
ghost use Rattle.asn1_blocks.specs.Tree.{trees_of};
ghost use Rattle.asn1_headers.specs.declared.error.ASN1EncodeErr.TheVariants.{OutOfMemory as no_memory};
ghost use Rattle.asn1_types.specs.Inner.Encodings.{octets_of, value_of};
ghost use Rattle.asn1_types.specs.SetOrder.{IsInOrder};
ghost use Rattle.simple_asn1.specs.Canonical.{canonical, first_write_fault, write_fault};

use crate::encoded::Encoded;
use crate::{Asn1Write, SetOf};
use asn1_blocks::block::discard::discard_one;
use asn1_headers::error::ASN1EncodeErr;
use simple_asn1::to_der;
use std::alloc::{AllocError, Global};
use std::cmp::Ordering;

impl<T: Asn1Write + Drop> SetOf<T> {
    /// The SET OF these values in the order of their encodings, as DER has it (X.690 11.6). Each value is written once,
    /// and its octets are held while the values are sorted.
    ///
    /// # Errors
    /// The errors of [`to_der`] for the first value that cannot be written; `OutOfMemory`.
    ///
    /// ```rust
    /// use asn1_types::SetOf;
    /// use simple_asn1::{ASN1EncodeErr, BigInt};
    /// use std::alloc::Global;
    ///
    /// // Written as `31 06 02 01 05 02 01 07`.
    /// fn numbers(alloc: Global) -> Result<SetOf<BigInt>, ASN1EncodeErr> {
    ///     let numbers = vec![in alloc; BigInt::from_i64(alloc, 7)?, BigInt::from_i64(alloc, 5)?]?;
    ///     SetOf::in_order(alloc, numbers)
    /// }
    /// ```
    pub fn in_order(alloc: Global, values: Vec<T>) -> Result<SetOf<T>, ASN1EncodeErr>
        ensures ordered { IfOk result (λ set. IsInOrder T.Asn1Type.tree values.items set) }
        ensures writable { OnOk result (first_write_fault (trees_of (map T.Asn1Type.tree values.items)) ≡ None) }
        ensures refused { IfErr result (λ e. (e ≡ no_memory)
            ⊎ (first_write_fault (trees_of (map T.Asn1Type.tree values.items)) ≡ Some e)) }
    {
        let mut items = encode_all(alloc, values)?;
        items.sort_by(|a: &Encoded<T>, b: &Encoded<T>| encoding_order(a, b))?;
        let values = values_of(alloc, items)?;
        Ok(SetOf { values })
    }
}

fn encoding_order<T: Asn1Write>(a: &Encoded<T>, b: &Encoded<T>) -> Ordering
    ensures { result ≡ slice_cmp nat_cmp (octets_of a.now) (octets_of b.now) }
{
    a.octets.cmp(&b.octets)
}

// Each value with what is written of it.
fn encode_all<T: Asn1Write + Drop>(
    alloc: Global,
    values: Vec<T>,
) -> Result<Vec<Encoded<T>>, ASN1EncodeErr>
    ensures values { IfOk result (λ items. map value_of items.items ≡ values.items) }
    ensures writable { OnOk result (first_write_fault (trees_of (map T.Asn1Type.tree values.items)) ≡ None) }
    ensures refused { IfErr result (λ e. (e ≡ no_memory)
        ⊎ (first_write_fault (trees_of (map T.Asn1Type.tree values.items)) ≡ Some e)) }
{
    let mut items = Vec::with_capacity(alloc, values.len())?;
    for value in values {
        items.push(encode(alloc, value)?)?;
    }
    Ok(items)
}

fn encode<T: Asn1Write + Drop>(alloc: Global, value: T) -> Result<Encoded<T>, ASN1EncodeErr>
    ensures value { IfOk result (λ item. item.value ≡ value) }
    ensures writable { OnOk result (write_fault (T.Asn1Type.tree value) ≡ None) }
    ensures refused { IfErr result (λ e. (e ≡ no_memory) ⊎ (write_fault (T.Asn1Type.tree value) ≡ Some e)) }
{
    let octets = octets_of_value(alloc, &value)?;
    Ok(Encoded { octets, value })
}

// What is written of a value.
fn octets_of_value<T: Asn1Write>(alloc: Global, value: &T) -> Result<Vec<u8>, ASN1EncodeErr>
    ensures octets { IfOk result (λ octets. octets.items ≡ canonical (T.Asn1Type.tree value.now)) }
    ensures writable { OnOk result (write_fault (T.Asn1Type.tree value.now) ≡ None) }
    ensures refused { IfErr result
        (λ e. (e ≡ no_memory) ⊎ (write_fault (T.Asn1Type.tree value.now) ≡ Some e)) }
{
    let block = value.write(alloc)?;
    let written = to_der(alloc, &block);
    discard_one(block);
    written
}

// The values alone.
fn values_of<T: Asn1Write + Drop>(
    alloc: Global,
    items: Vec<Encoded<T>>,
) -> Result<Vec<T>, AllocError>
    ensures { IfOk result (λ values. values.items ≡ map value_of items.items) }
{
    let mut values = Vec::with_capacity(alloc, items.len())?;
    for item in items {
        let Encoded { octets: _, value } = item;
        values.push(value)?;
    }
    Ok(values)
}
