// What chooses a type, an object identifier or an INTEGER, as a number by which it is compared: its contents octets
// behind an octet 1, in base 256.
// How many contents octets it has at most that is compared.
const MOST_OCTETS: usize = 15;

// The number by these contents octets; where there are more than 15, one that none has.
pub fn number_of(contents: &[u8]) -> u128 {
    if contents.len() > MOST_OCTETS {
        return u128::MAX;
    }
    contents
        .iter()
        .fold(1, |number, octet| number << 8 | *octet as u128)
}

// The number of an object identifier whose components stand in decimal with points between them, or of an INTEGER in
// decimal, from 0 to 32,767. `None` of other texts, and where a component passes 32 bits.
pub fn written_number(text: &str) -> Option<u128> {
    if let Ok(integer) = text.parse::<u16>() {
        return Some(integer_number(integer));
    }
    let mut components = text.split('.');
    let first = components.next()?.parse::<u32>().ok()?;
    let second = components.next()?.parse::<u32>().ok()?;
    // the first subidentifier is of two components (X.690 8.19.4)
    let mut number = with_subidentifier(1, first.checked_mul(40)?.checked_add(second)?)?;
    for component in components {
        number = with_subidentifier(number, component.parse::<u32>().ok()?)?;
    }
    Some(number)
}

// An INTEGER has the fewest octets that have room for its sign, too (X.690 8.3).
fn integer_number(integer: u16) -> u128 {
    match integer.to_be_bytes() {
        [0, last @ 0..=0x7F] => number_of(&[last]),
        octets => number_of(&octets),
    }
}

// Seven bits an octet, and bit 8 in each but the last (X.690 8.19.2).
fn with_subidentifier(number: u128, component: u32) -> Option<u128> {
    let mut number = number;
    for shift in [28u32, 21, 14, 7, 0] {
        let rest = component >> shift;
        let more = if shift > 0 { 128 } else { 0 };
        if rest > 0 || shift == 0 {
            let octet = (rest % 128 + more) as u128;
            number = number.checked_mul(256)?.checked_add(octet)?;
        }
    }
    Some(number)
}
