// Hex digits that are decoded while they are read, so that they need not be held.
ghost use Rattle.std.specs.Prelude.{◌≡◌, ◌<◌, unwrap_or, IfSome};
ghost use Rattle.hex.specs.Hex.{hex_digit_value};

use std::alloc::{AllocError, Global};

/// What the hex digits of a text spell.
#[derive(Debug, Drop)]
pub enum Spelling {
    /// These octets.
    Octets(Vec<u8>),
    /// The number of digits is odd.
    Odd,
    /// Nothing: there are no digits, or not digits alone.
    Nothing,
}

// The octets of the pairs of digits that were read, and the value of a last digit that has no second one yet.
#[derive(Drop)]
pub(crate) struct HexDecoder {
    pub(crate) octets: Vec<u8>,
    pub(crate) high: Option<u8>,
    ghost is_value: { unwrap_or high 0 < 16 },
}

impl HexDecoder {
    ghost use Rattle.std.specs.Prelude.{◌≡◌, ◌++◌, ◌∷◌, ℕ, List, [], IfOk};
    ghost use Rattle.std.specs.Char.{is_ascii_hexdigit};
    ghost use Rattle.der_digits.specs.Decoded.{HasRead, IsRead};
    ghost use Rattle.der_digits.specs.Spelled.{IsSpelling};

    // A decoder that has read no digits.
    pub(crate) fn new(alloc: Global) -> HexDecoder
        ensures { HasRead result [] }
    {
        HexDecoder {
            octets: Vec::new(alloc),
            high: None,
        }
    }

    // Reads a symbol. Returns `false` where it is no digit.
    pub(crate) fn read(&mut self, symbol: u8) -> Result<bool, AllocError>
        ensures digit { IfOk result (λ is_read. is_read ≡ is_ascii_hexdigit symbol) }
        ensures read { (digits : List ℕ) → HasRead self.old digits
            → IfOk result (λ is_read. IsRead is_read self.new (digits ++ symbol ∷ [])) }
    {
        let Some(value) = digit_value(symbol) else {
            return Ok(false);
        };
        match self.high {
            Some(high) => {
                self.octets.push(16 * high + value)?;
                self.high = None;
            }
            None => self.high = Some(value),
        }
        Ok(true)
    }

    // What the digits spell.
    pub(crate) fn finish(self) -> Spelling
        ensures { (digits : List ℕ) → HasRead self digits → IsSpelling result digits }
    {
        match self.high {
            Some(_) => Spelling::Odd,
            None if self.octets.is_empty() => Spelling::Nothing,
            None => Spelling::Octets(self.octets),
        }
    }
}

fn digit_value(b: u8) -> Option<u8>
    ensures value { result ≡ hex_digit_value b }
    ensures bound { IfSome result (λ n. n < 16) }
{
    match b {
        b'0'..=b'9' => Some(b - b'0'),
        b'A'..=b'F' => Some(b - b'A' + 10),
        b'a'..=b'f' => Some(b - b'a' + 10),
        _ => None,
    }
}
