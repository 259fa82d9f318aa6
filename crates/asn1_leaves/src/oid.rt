// Object identifiers.
ghost use Rattle.std.specs.Prelude.{◌≡◌, ◌↔◌, ◌⊎◌, ◌≤◌, ◌++◌, ◌∷◌, [], ℕ, List, None, Some, length, IfOk, IfErr, IfSome, IfNone, IsTrue, OnOk};
ghost use Rattle.std.specs.Fmt.{WritesOnOk};
ghost use Rattle.std.specs.List.{flat_map};
ghost use Rattle.asn1_headers.specs.Fault.{OutOfMemoryOr};
ghost use Rattle.asn1_leaves.specs.Contents.ObjectIdentifier.{IsFaithfulObjectIdentifier, ObjectIdentifierContents, ObjectIdentifierFault, Subidentifiers, object_identifier_contents, object_identifier_write_fault};
ghost use Rattle.asn1_leaves.specs.DottedDecimal.{IsDottedDecimal, dotted_decimal};
ghost use Rattle.asn1_leaves.specs.Inner.IdentifierForms.{HaveShortContents, IsShortForm, components_of, numbers_after, pointed};
ghost use Rattle.asn1_numbers.specs.FittingNumbers.{AreNumbers, HasNotAll};
ghost use Rattle.asn1_headers.specs.declared.error.ASN1DecodeErr.TheVariants.{Overflow, OutOfMemory};
ghost use Rattle.asn1_headers.specs.declared.error.ASN1EncodeErr.TheVariants.{OutOfMemory as no_memory};

use crate::contents::object_identifier;
use crate::contents::object_identifier::{component_count, first_two};
use crate::from_big_uint::FromBigUint;
use arrayvec::ArrayVec;
use asn1_headers::error::{ASN1DecodeErr, ASN1EncodeErr};
use asn1_headers::header::decode_base127;
use asn1_numbers::number::big_uint::BigUint;
use asn1_numbers::sink::Sink;
use std::alloc::{AllocError, Global};
use std::fmt;
use std::marker::Model;

/// An object identifier (X.660): its components, natural numbers of any size.
///
/// Any list of numbers makes one. [`OID::as_raw`] says which of them have contents octets.
///
/// `{}` and `{:?}` write the components in decimal with a point between two of them, as in `1.2.840`, and
/// [`OID::from_text`] reads that. It takes no memory if all components are below 2^64; if memory runs out for others,
/// the result is `fmt::Error`.
///
/// ```rust
/// use simple_asn1::OID;
/// use std::alloc::{AllocError, Global};
///
/// // Of commonName of X.520 the text `2.5.4.3`.
/// fn text(alloc: Global, oid: &OID) -> Result<String, AllocError> {
///     format!(in alloc; "{oid}")
/// }
/// ```
#[derive(Drop)]
pub struct OID {
    kept: Kept,
    // The allocator takes no room. `fmt` is given none, and a large component takes memory to be written.
    alloc: Global,
}

// Nearly all have at most 24 contents octets, and these are kept in place, in their shortest form. The
// others are kept as their components: those that have more contents octets, and those that have none.
#[derive(Drop)]
enum Kept {
    Octets(ArrayVec<u8, 24>),
    Components(Vec<BigUint>),
}

const _: () = prove!(size_of::<OID>() == 40);

impl Model for OID {
    ghost use Rattle.std.specs.Prelude.{List, ℕ};
    ghost use Rattle.asn1_leaves.specs.Inner.IdentifierForms.{kept_components, IsKeptOnce};

    ghost Value = { List ℕ };

    ghost view = { λ oid. kept_components oid.kept };

    ghost invariant = { λ oid. IsKeptOnce oid.kept };
}

// The contents octets, where there are at most 24.
fn short_contents(components: &[BigUint]) -> Option<ArrayVec<u8, 24>>
    ensures short { IfSome result (λ octets. HaveShortContents components.now
        × (octets.items ≡ object_identifier_contents components.now)) }
    ensures others { IfNone result (HaveShortContents components.now → ⊥) }
{
    let size = object_identifier::size(components).ok()?;
    if size > 24 {
        return None;
    }
    let mut octets = ArrayVec::new();
    object_identifier::push(components, &mut octets);
    Some(octets)
}

// A copy of the numbers.
fn copy_of(alloc: Global, numbers: &[BigUint]) -> Result<Vec<BigUint>, AllocError>
    ensures { IfOk result (λ copy. copy.items ≡ numbers.now) }
{
    let mut copy = Vec::with_capacity(alloc, numbers.len())?;
    for number in numbers {
        copy.push(number.clone(alloc)?)?;
    }
    Ok(copy)
}

// Writes each of the numbers in decimal, after a point.
fn write_pointed<W: fmt::Write>(numbers: &[BigUint], f: &mut fmt::Formatter<W>) -> fmt::Result
    ensures { WritesOnOk W.write_str_gives f.old result (flat_map pointed numbers.now) f.new }
{
    for number in numbers {
        write!(f, ".{number}")?;
    }
    Ok(())
}

// Writes the numbers in decimal, with a point between two of them.
fn write_dotted<W: fmt::Write>(numbers: &[BigUint], f: &mut fmt::Formatter<W>) -> fmt::Result
    ensures { WritesOnOk W.write_str_gives f.old result (dotted_decimal numbers.now) f.new }
{
    let Some((first, rest)) = numbers.split_first() else {
        return Ok(());
    };
    write!(f, "{first}")?;
    write_pointed(rest, f)
}

// Writes each of the numbers of the subidentifiers in decimal, after a point.
fn write_subidentifiers<W: fmt::Write>(
    alloc: Global,
    octets: &[u8],
    f: &mut fmt::Formatter<W>,
) -> fmt::Result
    ensures { WritesOnOk W.write_str_gives f.old result (flat_map pointed (numbers_after 0 octets.now)) f.new }
{
    let mut index: usize = 0;
    while index < octets.len() {
        let Ok(number) = decode_base127(alloc, octets, &mut index) else {
            return Err(fmt::Error);
        };
        write!(f, ".{number}")?;
    }
    Ok(())
}

// Writes the components of short contents octets in decimal, with a point between two of them.
fn write_short<W: fmt::Write>(
    alloc: Global,
    contents: &[u8],
    f: &mut fmt::Formatter<W>,
) -> fmt::Result
    requires { IsShortForm contents.now }
    ensures { WritesOnOk W.write_str_gives f.old result (dotted_decimal (components_of contents.now)) f.new }
{
    let Some((octet, rest)) = contents.split_first() else {
        unreachable!();
    };
    let (first, second) = first_two(*octet);
    write!(f, "{first}.{second}")?;
    write_subidentifiers(alloc, rest, f)
}

// Puts the number as a value of the type at the end.
fn push_number<T: FromBigUint>(number: &BigUint, numbers: &mut Vec<T>) -> Result<(), ASN1DecodeErr>
    ensures pushed { OnOk result ((ns : List ℕ) → AreNumbers T.has T.is_number numbers.old.items ns
        → AreNumbers T.has T.is_number numbers.new.items (ns ++ number.now ∷ [])) }
    ensures refused { IfErr result (λ e. (e ≡ OutOfMemory) ⊎ ((e ≡ Overflow) × (T.has number.now → ⊥))) }
{
    match T::from_big(number) {
        Some(x) => numbers.push(x)?,
        None => return Err(ASN1DecodeErr::Overflow),
    }
    Ok(())
}

// The numbers as values of the type.
fn numbers_of<T: FromBigUint>(
    alloc: Global,
    components: &[BigUint],
) -> Result<Vec<T>, ASN1DecodeErr>
    ensures all { IfOk result (λ v. AreNumbers T.has T.is_number v.items components.now) }
    ensures refused { IfErr result (λ e. (e ≡ OutOfMemory)
        ⊎ ((e ≡ Overflow) × HasNotAll T.has components.now)) }
{
    let mut numbers = Vec::with_capacity(alloc, components.len())?;
    for component in components {
        push_number(component, &mut numbers)?;
    }
    Ok(numbers)
}

// Puts the numbers of the subidentifiers as values of the type at the end.
fn push_numbers<T: FromBigUint>(
    alloc: Global,
    octets: &[u8],
    numbers: &mut Vec<T>,
) -> Result<(), ASN1DecodeErr>
    requires { (ns : List ℕ) × Subidentifiers ns octets.now }
    ensures pushed { OnOk result ((ns : List ℕ) → AreNumbers T.has T.is_number numbers.old.items ns
        → AreNumbers T.has T.is_number numbers.new.items (ns ++ numbers_after 0 octets.now)) }
    ensures refused { IfErr result (λ e. (e ≡ OutOfMemory)
        ⊎ ((e ≡ Overflow) × HasNotAll T.has (numbers_after 0 octets.now))) }
{
    let mut index: usize = 0;
    while index < octets.len() {
        let number = decode_base127(alloc, octets, &mut index)?;
        push_number(&number, numbers)?;
    }
    Ok(())
}

// The components of short contents octets as values of the type.
fn numbers_of_short<T: FromBigUint>(alloc: Global, contents: &[u8]) -> Result<Vec<T>, ASN1DecodeErr>
    requires { IsShortForm contents.now }
    ensures all { IfOk result (λ v. AreNumbers T.has T.is_number v.items (components_of contents.now)) }
    ensures refused { IfErr result (λ e. (e ≡ OutOfMemory)
        ⊎ ((e ≡ Overflow) × HasNotAll T.has (components_of contents.now))) }
{
    let Some((octet, rest)) = contents.split_first() else {
        unreachable!();
    };
    let mut numbers = Vec::with_capacity(alloc, component_count(rest))?;
    let (first, second) = first_two(*octet);
    push_number(&BigUint::from_u64(alloc, first as u64)?, &mut numbers)?;
    push_number(&BigUint::from_u64(alloc, second as u64)?, &mut numbers)?;
    push_numbers(alloc, rest, &mut numbers)?;
    Ok(numbers)
}

// The components of contents octets.
#[inline(always)]
pub fn read(alloc: Global, contents: &[u8]) -> Result<OID, ASN1DecodeErr>
    ensures found { IfOk result (λ oid. ObjectIdentifierContents oid contents.now) }
    ensures refused { IfErr result (OutOfMemoryOr (ObjectIdentifierFault contents.now)) }
{
    if contents.len() <= 24 && object_identifier::are_clearly_shortest(contents) {
        return Ok(OID::from_short(alloc, contents));
    }
    Ok(OID::new(object_identifier::read(alloc, contents)?))
}

// The number of contents octets that are written.
pub fn size(oid: &OID) -> Result<usize, ASN1EncodeErr>
    ensures size { IfOk result (λ n. n ≡ length (object_identifier_contents oid.now)) }
    ensures writable { OnOk result (object_identifier_write_fault oid.now ≡ None) }
    ensures refused { IfErr result (λ e. (e ≡ no_memory) ⊎ (object_identifier_write_fault oid.now ≡ Some e)) }
{
    match &oid.kept {
        Kept::Octets(octets) => Ok(octets.len()),
        Kept::Components(components) => object_identifier::size(components.as_slice()),
    }
}

pub fn push<S: Sink>(oid: &OID, out: &mut S)
    requires room { length (object_identifier_contents oid.now) ≤ S.room out.old }
    requires writable { object_identifier_write_fault oid.now ≡ None }
    ensures { S.pushes out.old (object_identifier_contents oid.now) out.new }
{
    match &oid.kept {
        Kept::Octets(octets) => out.push_octets(octets.as_slice()),
        Kept::Components(components) => object_identifier::push(components.as_slice(), out),
    }
}

// Whether the components are read back as they are, once they are written.
pub fn is_faithful(oid: &OID) -> bool
    ensures { IsTrue result ↔ IsFaithfulObjectIdentifier oid.now }
{
    match &oid.kept {
        Kept::Octets(_) => true,
        Kept::Components(components) => object_identifier::is_faithful(components.as_slice()),
    }
}

impl OID {
    /// The object identifier of these components. It takes no memory.
    ///
    /// ```rust
    /// use simple_asn1::{BigUint, OID};
    ///
    /// // The object identifier of these components.
    /// fn identifier(components: Vec<BigUint>) -> OID {
    ///     OID::new(components)
    /// }
    /// ```
    pub fn new(x: Vec<BigUint>) -> OID
        ensures { result ≡ x.items }
    {
        let alloc = *x.allocator();
        if let Some(octets) = short_contents(x.as_slice()) {
            return OID {
                kept: Kept::Octets(octets),
                alloc,
            };
        }
        OID {
            kept: Kept::Components(x),
            alloc,
        }
    }

    // The object identifier of at most 24 contents octets, in their shortest form.
    fn from_short(alloc: Global, contents: &[u8]) -> OID
        requires short { length contents.now ≤ 24 }
        requires meant { (components : List ℕ) × ObjectIdentifierContents components contents.now }
        requires shortest { (components : List ℕ) → ObjectIdentifierContents components contents.now
            → contents.now ≡ object_identifier_contents components }
        ensures { ObjectIdentifierContents result contents.now }
    {
        let mut octets = ArrayVec::new();
        octets.try_extend_from_slice(contents).unwrap();
        OID {
            kept: Kept::Octets(octets),
            alloc,
        }
    }

    /// The object identifier of these components, in one allocation, which is freed if there are at most 24 contents
    /// octets. The only error is that memory ran out.
    ///
    /// `simple_asn1::oid!` is the same with the components written one by one.
    ///
    /// ```rust
    /// use simple_asn1::OID;
    /// use std::alloc::{AllocError, Global};
    ///
    /// // 2.5.4.3, commonName of X.520
    /// fn common_name(alloc: Global) -> Result<OID, AllocError> {
    ///     OID::from_u64s(alloc, &[2, 5, 4, 3])
    /// }
    /// ```
    pub fn from_u64s(alloc: Global, components: &[u64]) -> Result<OID, AllocError>
        ensures { IfOk result (λ oid. oid ≡ components.now) }
    {
        let mut numbers = Vec::with_capacity(alloc, components.len())?;
        for component in components {
            numbers.push(BigUint::from_u64(alloc, *component)?)?;
        }
        Ok(OID::new(numbers))
    }

    /// The object identifier of a text that is decimal numerals, at least one, with a point between two of them, as
    /// `{}` writes it: `1.2.840`. No numeral has a sign, or a leading zero but `0` itself. The components need not
    /// have contents octets. They are pushed to a vector first, as by [`OID::new`]; a numeral is read as by
    /// [`BigUint::from_text`]. The only error is that memory ran out.
    ///
    /// ```rust
    /// use simple_asn1::OID;
    /// use std::alloc::{AllocError, Global};
    ///
    /// // Whether the text is the identifier's: `2.5.4.3` of commonName of X.520.
    /// fn is_of(alloc: Global, oid: &OID, text: &str) -> Result<bool, AllocError> {
    ///     Ok(match OID::from_text(alloc, text)? {
    ///         Some(read) => read == *oid,
    ///         None => false,
    ///     })
    /// }
    /// ```
    pub fn from_text(alloc: Global, text: &str) -> Result<Option<OID>, AllocError>
        ensures identifier { IfOk result (λ read. IfSome read (IsDottedDecimal text.now)) }
        ensures none { IfOk result (λ read. IfNone read
            ((components : List ℕ) → IsDottedDecimal text.now components → ⊥)) }
        // The text that an object identifier is written as is read as it.
        ensures only { IfOk result (λ read. IfSome read (λ oid.
            (components : List ℕ) → IsDottedDecimal text.now components → oid ≡ components)) }
    {
        let mut components = Vec::new(alloc);
        for numeral in text.split('.') {
            let Some(component) = BigUint::from_text(alloc, numeral)? else {
                return Ok(None);
            };
            components.push(component)?;
        }
        Ok(Some(OID::new(components)))
    }

    /// The contents octets (X.690 8.19), in one allocation of their size: the first two components
    /// in one octet, and each of the others as a base-128 number in its shortest form. 1.2.840 has
    /// `2A 86 48`.
    ///
    /// # Errors
    /// In this order: `ObjectIdentHasTooFewFields` if there are fewer than two components; `ObjectIdentVal1TooLarge`
    /// if the first is above 2; `ObjectIdentVal2TooLarge` if the second is above 39, or above 175 if the first is 2;
    /// `OutOfMemory`.
    ///
    /// ```rust
    /// use simple_asn1::{ASN1EncodeErr, OID};
    /// use std::alloc::Global;
    ///
    /// // Whether these are its contents octets: of 2.5.4.3 `55 04 03`.
    /// fn has_contents(alloc: Global, oid: &OID, contents: &[u8]) -> Result<bool, ASN1EncodeErr> {
    ///     let raw = oid.as_raw(alloc)?;
    ///     Ok(raw.as_slice() == contents)
    /// }
    /// ```
    pub fn as_raw(&self, alloc: Global) -> Result<Vec<u8>, ASN1EncodeErr>
        ensures contents { IfOk result (λ v. v.items ≡ object_identifier_contents self.now) }
        ensures writable { OnOk result (object_identifier_write_fault self.now ≡ None) }
        ensures refused { IfErr result (λ e. (e ≡ no_memory)
            ⊎ (object_identifier_write_fault self.now ≡ Some e)) }
    {
        let size = size(self)?;
        let mut octets = Vec::with_capacity(alloc, size)?;
        push(self, &mut octets);
        Ok(octets)
    }

    /// All components as numbers of the type, in one allocation. A component of 2^64 or more may take
    /// two others for a while.
    ///
    /// # Errors
    /// `Overflow` exactly if the type does not have one of them; `OutOfMemory`.
    ///
    /// ```rust
    /// use simple_asn1::{ASN1DecodeErr, OID};
    /// use std::alloc::Global;
    ///
    /// // Whether it is 2.5.4.3.
    /// fn is_common_name(alloc: Global, oid: &OID) -> Result<bool, ASN1DecodeErr> {
    ///     let components = oid.as_vec::<u64>(alloc)?;
    ///     Ok(components.as_slice() == [2, 5, 4, 3].as_slice())
    /// }
    /// ```
    pub fn as_vec<T: FromBigUint>(&self, alloc: Global) -> Result<Vec<T>, ASN1DecodeErr>
        ensures all { IfOk result (λ v. AreNumbers T.has T.is_number v.items self.now) }
        ensures refused { IfErr result (λ e. (e ≡ OutOfMemory)
            ⊎ ((e ≡ Overflow) × HasNotAll T.has self.now)) }
    {
        match &self.kept {
            Kept::Octets(octets) => numbers_of_short(alloc, octets.as_slice()),
            Kept::Components(components) => numbers_of(alloc, components.as_slice()),
        }
    }

    /// Copies the object identifier: of at most 24 contents octets without memory, otherwise in one allocation if all
    /// components are below 2^64. The only error is that memory ran out.
    ///
    /// ```rust
    /// use simple_asn1::{ASN1Block, OID};
    /// use std::alloc::{AllocError, Global};
    ///
    /// // A block of the same identifier.
    /// fn block(alloc: Global, oid: &OID) -> Result<ASN1Block, AllocError> {
    ///     Ok(ASN1Block::ObjectIdentifier(0, oid.clone(alloc)?))
    /// }
    /// ```
    pub fn clone(&self, alloc: Global) -> Result<OID, AllocError>
        ensures { IfOk result (λ oid. oid ≡ self.now) }
    {
        let kept = match &self.kept {
            Kept::Octets(octets) => Kept::Octets(octets.clone()?),
            Kept::Components(components) => Kept::Components(copy_of(
                alloc,
                components.as_slice(),
            )?),
        };
        Ok(OID { kept, alloc })
    }
}

impl fmt::Display for OID {
    ghost use Rattle.std.specs.Prelude.{Some};
    ghost use Rattle.asn1_leaves.specs.DottedDecimal.{dotted_decimal};

    ghost output = { λ oid. Some (dotted_decimal oid) };

    fn fmt<W: fmt::Write>(&self, f: &mut fmt::Formatter<W>) -> fmt::Result {
        match &self.kept {
            Kept::Octets(octets) => write_short(self.alloc, octets.as_slice(), f),
            Kept::Components(components) => write_dotted(components.as_slice(), f),
        }
    }
}

impl fmt::Debug for OID {
    ghost use Rattle.std.specs.Prelude.{Some};
    ghost use Rattle.asn1_leaves.specs.DottedDecimal.{dotted_decimal};

    ghost debug_output = { λ oid. Some (dotted_decimal oid) };

    fn fmt<W: fmt::Write>(&self, f: &mut fmt::Formatter<W>) -> fmt::Result {
        fmt::Display::fmt(self, f)
    }
}

impl PartialEq for OID {
    ghost use Rattle.std.specs.Prelude.{◌==◌};
    ghost use Rattle.std.specs.Cmp.{partial_equiv_from_equiv};
    ghost use Rattle.std.specs.Cmp.Lexicographic.{pointwise, nat_list_eq_equiv};

    ghost eq = { λ a b. pointwise (λ m n. m == n) a b };

    ghost laws = { partial_equiv_from_equiv nat_list_eq_equiv };

    fn eq(&self, other: &Self) -> bool {
        match (&self.kept, &other.kept) {
            (Kept::Octets(a), Kept::Octets(b)) => a.as_slice() == b.as_slice(),
            (Kept::Components(a), Kept::Components(b)) => a == b,
            _ => false,
        }
    }
}

impl Eq for OID {
    ghost use Rattle.std.specs.Cmp.Lexicographic.{nat_list_eq_equiv};

    ghost laws = { nat_list_eq_equiv };
}
