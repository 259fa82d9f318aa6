// The encoding in front of octets, by its header.
ghost use Rattle.std.specs.Prelude.{◌≡◌, IfNone, IfSome, false, true};
ghost use Rattle.asn1_der.specs.Components.{are_contents, behind_component, behind_contents, behind_identifier as behind_identifier_is, behind_last as behind_last_is, component_of, contents_of, has_component, is_alone as is_alone_is, leading_of as leading_of_is};

use asn1_headers::header::length_at;

// An encoding: the first of its identifier octets, its contents octets, and what follows it.
#[derive(Clone, Copy, Drop)]
pub struct Component<'a> {
    pub leading: u8,
    pub contents: &'a [u8],
    pub behind: &'a [u8],
}

// The encoding in front, if there is one.
pub fn front_component(octets: &[u8]) -> Option<Component<'_>>
    ensures found { IfSome result (λ it. has_component octets.now ≡ true) }
    ensures leading { IfSome result (λ it. it.leading ≡ leading_of_is octets.now) }
    ensures contents { IfSome result (λ it. it.contents.now ≡ component_of octets.now) }
    ensures behind { IfSome result (λ it. it.behind.now ≡ behind_component octets.now) }
    ensures none { IfNone result (has_component octets.now ≡ false) }
{
    let (contents, behind) = split_contents(behind_identifier(octets))?;
    Some(Component {
        leading: leading_of(octets),
        contents,
        behind,
    })
}

// Whether the octets are an encoding, and no more.
pub fn is_alone(octets: &[u8]) -> bool
    ensures { result ≡ is_alone_is octets.now }
{
    match front_component(octets) {
        Some(component) => component.behind.is_empty(),
        None => false,
    }
}

// The leading octet, 0 of none.
fn leading_of(octets: &[u8]) -> u8
    ensures { result ≡ leading_of_is octets.now }
{
    match octets {
        [leading, ..] => *leading,
        [] => 0,
    }
}

// What follows the identifier octets.
#[tactic(auto, unfolding(crate::specs::Components::behind_identifier))]
fn behind_identifier(octets: &[u8]) -> &[u8]
    ensures { result.now ≡ behind_identifier_is octets.now }
{
    match octets {
        [leading, rest @ ..] if *leading % 32 == 31 => behind_last(rest),
        [_, rest @ ..] => rest,
        [] => octets,
    }
}

// What follows the first octet below 80.
fn behind_last(octets: &[u8]) -> &[u8]
    ensures { result.now ≡ behind_last_is octets.now }
{
    let mut rest = octets;
    while let [octet, more @ ..] = rest {
        rest = more;
        if *octet < 128 {
            return rest;
        }
    }
    rest
}

// The contents octets that length octets in front say, and what follows them.
fn split_contents(octets: &[u8]) -> Option<(&[u8], &[u8])>
    ensures found { IfSome result (λ it. are_contents octets.now ≡ true) }
    ensures contents { IfSome result (λ it. it.0.now ≡ contents_of octets.now) }
    ensures behind { IfSome result (λ it. it.1.now ≡ behind_contents octets.now) }
    ensures none { IfNone result (are_contents octets.now ≡ false) }
{
    let Ok((size, count)) = length_at(octets) else {
        return None;
    };
    let (_, rest) = octets.split_at(count);
    if size > rest.len() {
        return None;
    }
    Some(rest.split_at(size))
}
