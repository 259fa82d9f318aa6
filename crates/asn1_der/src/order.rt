// The order of the items of a SET.
ghost use Rattle.std.specs.Prelude.{◌≡◌, ◌↔◌, ◌%◌, ◌∷◌, [], IsTrue, Bool, List, ℕ, nat_lt, option_map};
ghost use Rattle.std.specs.List.{All, concat};
ghost use Rattle.asn1_numbers.specs.Base128.{IsBase128, shortest_base128};
ghost use Rattle.asn1_headers.specs.declared.header.ASN1Class.{ASN1Class};
ghost use Rattle.asn1_headers.specs.Header.{IsIdentifier};
ghost use Rattle.asn1_blocks.specs.Places.{IsEncoding};
ghost use Rattle.asn1_der.specs.Der.{AreDerEncodings, Ascend, HasLessTag, IsInOrder, is_less_tag, is_not_greater as is_not_greater_is};
ghost use Rattle.asn1_der.specs.Steps.{IsFront, MayFollow, MayStandBefore, behind};

use asn1_blocks::encoding::Encodings;
use asn1_headers::header::identifier_at;
use std::cmp::Ordering;

// By what encodings are compared.
#[derive(Clone, Copy, Drop)]
pub enum Order {
    Tags,
    Octets,
}

// Whether encodings one after another ascend by their tags or by their octets.
pub fn is_in_order(contents: &[u8]) -> bool
    ensures { (items : List (List ℕ)) → AreDerEncodings contents.now items → IsTrue result ↔ IsInOrder items }
{
    ascend(Order::Tags, contents) || ascend(Order::Octets, contents)
}

fn ascend(order: Order, contents: &[u8]) -> bool
    ensures { (items : List (List ℕ)) → All IsEncoding items → contents.now ≡ concat items →
        IsTrue result ↔ Ascend (MayStandBefore order) items }
{
    let mut before: Option<&[u8]> = None;
    for encoding in Encodings::of(contents) {
        if !may_follow(order, before, encoding) {
            return false;
        }
        before = Some(encoding);
    }
    true
}

fn may_follow(order: Order, before: Option<&[u8]>, next: &[u8]) -> bool
    ensures { All IsEncoding (behind (option_map (λ first. first.now) before.entry) (next.now ∷ [])) →
        IsTrue result ↔ MayFollow (MayStandBefore order) (option_map (λ first. first.now) before.entry) next.now }
{
    match before {
        Some(first) => may_stand_before(order, first, next),
        None => true,
    }
}

fn may_stand_before(order: Order, first: &[u8], next: &[u8]) -> bool
    ensures { IsEncoding first.now → IsEncoding next.now →
        IsTrue result ↔ MayStandBefore order first.now next.now }
{
    match order {
        Order::Tags => has_less_tag(first, next),
        Order::Octets => is_not_greater(first, next),
    }
}

fn has_less_tag(first: &[u8], next: &[u8]) -> bool
    ensures { IsEncoding first.now → IsEncoding next.now → IsTrue result ↔ HasLessTag first.now next.now }
{
    is_less_identifier(identifier_of(first), identifier_of(next))
}

// The identifier octets at the front; nothing where there are none.
fn identifier_of(octets: &[u8]) -> &[u8]
    ensures { (identifier : List ℕ) → IsFront identifier octets.now → result.now ≡ identifier }
{
    match identifier_at(octets) {
        Some(size) => octets.split_at(size).0,
        None => &[],
    }
}

// Whether the tag of the first identifier octets is less.
fn is_less_identifier(first: &[u8], next: &[u8]) -> bool
    ensures { (c d : ASN1Class) (j k : Bool) (m n : ℕ) → IsIdentifier first.now c j m →
        IsIdentifier next.now d k n → result ≡ is_less_tag c m d n }
{
    match (first, next) {
        ([leading, number @ ..], [next_leading, next_number @ ..]) => {
            let (class, next_class) = (*leading / 64, *next_leading / 64);
            if class != next_class {
                return class < next_class;
            }
            is_less_number(
                tag_number(&[*leading % 32], number),
                tag_number(&[*next_leading % 32], next_number),
            )
        }
        _ => false,
    }
}

// The shortest octets of the tag number that stands in the low bits of a leading octet, or in octets behind it.
fn tag_number<'a>(low: &'a [u8], octets: &'a [u8]) -> &'a [u8]
    ensures { (b n : ℕ) (c : ASN1Class) (k : Bool) → IsIdentifier (b ∷ octets.now) c k n →
        low.now ≡ b % 32 ∷ [] → result.now ≡ shortest_base128 n }
{
    if octets.is_empty() {
        without_zeros(low)
    } else {
        without_zeros(octets)
    }
}

fn without_zeros(octets: &[u8]) -> &[u8]
    ensures { (n : ℕ) → IsBase128 octets.now n → result.now ≡ shortest_base128 n }
{
    let mut rest = octets;
    while let [first, more @ ..] = rest {
        if *first != 128 {
            return rest;
        }
        rest = more;
    }
    rest
}

// Of two numbers in the fewest octets the one in fewer is less, and of as many the first that differs decides.
fn is_less_number(first: &[u8], next: &[u8]) -> bool
    ensures { (m n : ℕ) → first.now ≡ shortest_base128 m → next.now ≡ shortest_base128 n
        → result ≡ nat_lt m n }
{
    let order = first.len().cmp(&next.len()).then(first.cmp(&next));
    matches!(order, Ordering::Less)
}

// Whether the octets of the first, compared one by one, are not greater.
pub fn is_not_greater(first: &[u8], next: &[u8]) -> bool
    ensures { result ≡ is_not_greater_is first.now next.now }
{
    !matches!(first.cmp(&next), Ordering::Greater)
}
