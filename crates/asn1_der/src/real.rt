// Contents octets of a REAL (X.690 8.5, 11.3).
ghost use Rattle.std.specs.Prelude.{◌≡◌, ◌≤◌, ◌∷◌, length};
ghost use Rattle.std.specs.Char.{is_ascii_digit};
ghost use Rattle.std.specs.List.{list_all};
ghost use Rattle.asn1_der.specs.Real.{behind_digits as behind_digits_is, behind_minus as behind_minus_is, digit_count as digit_count_is, ends_in_exponent as ends_in_exponent_is, is_binary as is_binary_is, is_decimal as is_decimal_is, is_decimal_exponent as is_decimal_exponent_is, is_decimal_mantissa as is_decimal_mantissa_is, is_odd_mantissa as is_odd_mantissa_is, is_real as is_real_is, is_scaled as is_scaled_is, is_unpadded as is_unpadded_is};

use crate::padding::{is_padded_number, last_octet};

// Whether contents octets are those of a REAL.
#[inline(never)]
pub fn is_real(contents: &[u8]) -> bool
    ensures { result ≡ is_real_is contents.now }
{
    match contents {
        [] => true,
        [first, octets @ ..] => is_encoded(*first, octets),
    }
}

// Whether contents octets of a REAL are DER, by the first octet and those behind it.
fn is_encoded(first: u8, octets: &[u8]) -> bool
    ensures { result ≡ is_real_is (first ∷ octets.now) }
{
    if first > 127 {
        return first % 64 < 4 && is_binary(first % 4, octets);
    }
    if first == 3 {
        return is_decimal(octets);
    }
    first > 63 && first < 68 && octets.is_empty()
}

fn is_binary(form: u8, octets: &[u8]) -> bool
    requires { form ≤ 3 }
    ensures { result ≡ is_binary_is form octets.now }
{
    match octets {
        [] => false,
        [size, more @ ..] => {
            if form == 3 {
                *size > 3 && is_scaled(*size as usize, more)
            } else {
                is_scaled(form as usize + 1, octets)
            }
        }
    }
}

fn is_scaled(size: usize, octets: &[u8]) -> bool
    ensures { result ≡ is_scaled_is size octets.now }
{
    if size >= octets.len() {
        return false;
    }
    let (exponent, mantissa) = octets.split_at(size);
    !is_padded_number(exponent) && is_odd_mantissa(mantissa)
}

fn is_odd_mantissa(octets: &[u8]) -> bool
    ensures { result ≡ is_odd_mantissa_is octets.now }
{
    match octets {
        [] => false,
        [first, ..] => *first != 0 && last_octet(octets) % 2 == 1,
    }
}

fn is_decimal(text: &[u8]) -> bool
    ensures { result ≡ is_decimal_is text.now }
{
    let number = behind_minus(text);
    let (digits, end) = number.split_at(digit_count(number));
    is_decimal_mantissa(digits) && ends_in_exponent(end)
}

fn behind_minus(text: &[u8]) -> &[u8]
    ensures { result.now ≡ behind_minus_is text.now }
{
    match text {
        [b'-', more @ ..] => more,
        _ => text,
    }
}

// How many digits stand at the front.
pub fn digit_count(text: &[u8]) -> usize
    ensures count { result ≡ digit_count_is text.now }
    ensures within { result ≤ length text.now }
{
    let mut count = 0;
    for c in text {
        if !c.is_ascii_digit() {
            return count;
        }
        count += 1;
    }
    count
}

// What stands behind the digits at the front.
pub fn behind_digits(text: &[u8]) -> &[u8]
    ensures { result.now ≡ behind_digits_is text.now }
{
    text.split_at(digit_count(text)).1
}

fn is_decimal_mantissa(digits: &[u8]) -> bool
    ensures { result ≡ is_decimal_mantissa_is digits.now }
{
    is_unpadded(digits) && last_octet(digits) != b'0'
}

fn is_unpadded(text: &[u8]) -> bool
    ensures { result ≡ is_unpadded_is text.now }
{
    match text {
        [] => false,
        [first, ..] => *first != b'0' && are_digits(text),
    }
}

pub fn are_digits(text: &[u8]) -> bool
    ensures { result ≡ list_all is_ascii_digit text.now }
{
    text.iter().all(|c| c.is_ascii_digit())
}

fn ends_in_exponent(text: &[u8]) -> bool
    ensures { result ≡ ends_in_exponent_is text.now }
{
    match text {
        [point, mark, exponent @ ..] => {
            *point == b'.' && *mark == b'E' && is_decimal_exponent(exponent)
        }
        _ => false,
    }
}

fn is_decimal_exponent(text: &[u8]) -> bool
    ensures { result ≡ is_decimal_exponent_is text.now }
{
    match text {
        [b'+', b'0'] => true,
        _ => is_unpadded(behind_minus(text)),
    }
}
