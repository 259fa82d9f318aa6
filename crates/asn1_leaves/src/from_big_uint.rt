// Types of numbers that a component of an object identifier is asked for as.
ghost use Rattle.std.specs.Prelude.{◌≡◌, ℕ, ◌<◌, ◌^◌, pos, MatchOption};

use asn1_numbers::number::big_uint::BigUint;

/// A type of numbers that a [`BigUint`] may fit.
///
/// It is implemented for the integer types of the language. Signed ones take numbers up to their greatest.
pub trait FromBigUint: Sized + Drop {
    // The type has this number.
    ghost has: { ℕ → Type 0 };

    // The value is this number.
    ghost is_number: { Self → ℕ → Type 0 };

    /// The number as a value of the type; `None` exactly if the type does not have it. It takes no memory.
    fn from_big(v: &BigUint) -> Option<Self>
        ensures { MatchOption result (has v.now → ⊥) (λ x. has v.now × is_number x v.now) };
}

impl FromBigUint for u8 {
    ghost has = { λ n. n < 2 ^ 8 };

    ghost is_number = { λ x n. x ≡ n };

    fn from_big(v: &BigUint) -> Option<u8> {
        v.to_u8()
    }
}

impl FromBigUint for u16 {
    ghost has = { λ n. n < 2 ^ 16 };

    ghost is_number = { λ x n. x ≡ n };

    fn from_big(v: &BigUint) -> Option<u16> {
        v.to_u16()
    }
}

impl FromBigUint for u32 {
    ghost has = { λ n. n < 2 ^ 32 };

    ghost is_number = { λ x n. x ≡ n };

    fn from_big(v: &BigUint) -> Option<u32> {
        v.to_u32()
    }
}

impl FromBigUint for u64 {
    ghost has = { λ n. n < 2 ^ 64 };

    ghost is_number = { λ x n. x ≡ n };

    fn from_big(v: &BigUint) -> Option<u64> {
        v.to_u64()
    }
}

impl FromBigUint for u128 {
    ghost has = { λ n. n < 2 ^ 128 };

    ghost is_number = { λ x n. x ≡ n };

    fn from_big(v: &BigUint) -> Option<u128> {
        v.to_u128()
    }
}

impl FromBigUint for usize {
    ghost has = { λ n. n < 2 ^ 64 };

    ghost is_number = { λ x n. x ≡ n };

    fn from_big(v: &BigUint) -> Option<usize> {
        v.to_usize()
    }
}

impl FromBigUint for i8 {
    ghost has = { λ n. n < 2 ^ 7 };

    ghost is_number = { λ x n. x ≡ pos n };

    fn from_big(v: &BigUint) -> Option<i8> {
        i8::try_from(v.to_u64()?).ok()
    }
}

impl FromBigUint for i16 {
    ghost has = { λ n. n < 2 ^ 15 };

    ghost is_number = { λ x n. x ≡ pos n };

    fn from_big(v: &BigUint) -> Option<i16> {
        i16::try_from(v.to_u64()?).ok()
    }
}

impl FromBigUint for i32 {
    ghost has = { λ n. n < 2 ^ 31 };

    ghost is_number = { λ x n. x ≡ pos n };

    fn from_big(v: &BigUint) -> Option<i32> {
        i32::try_from(v.to_u64()?).ok()
    }
}

impl FromBigUint for i64 {
    ghost has = { λ n. n < 2 ^ 63 };

    ghost is_number = { λ x n. x ≡ pos n };

    fn from_big(v: &BigUint) -> Option<i64> {
        i64::try_from(v.to_u64()?).ok()
    }
}

impl FromBigUint for i128 {
    ghost has = { λ n. n < 2 ^ 127 };

    ghost is_number = { λ x n. x ≡ pos n };

    fn from_big(v: &BigUint) -> Option<i128> {
        i128::try_from(v.to_u128()?).ok()
    }
}

impl FromBigUint for isize {
    ghost has = { λ n. n < 2 ^ 63 };

    ghost is_number = { λ x n. x ≡ pos n };

    fn from_big(v: &BigUint) -> Option<isize> {
        isize::try_from(v.to_u64()?).ok()
    }
}
