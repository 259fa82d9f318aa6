// Which rules of DER an encoding breaks.
ghost use Rattle.std.specs.Prelude.{◌≡◌, ◌+◌, ◌≤◌, [], IfOk, false, true, length, map};
ghost use Rattle.asn1_headers.specs.Front.{IsAtFront};
ghost use Rattle.dump_walk.specs.Fronts.{AreRulesFound};
ghost use Rattle.dump_walk.specs.Headers.{contents_in};
ghost use Rattle.dump_walk.specs.Marks.{EndsWithZero, breaches_of, text_in};

use crate::place::Place;
use asn1_der::{Rule, broken_rules};
use asn1_headers::whole_header::Header;
use dump_shapes::ValueRule;
use std::alloc::{AllocError, Global};

// What of DER an encoding breaks.
#[derive(Drop)]
pub struct Breaches {
    // the rules of the library that it breaks by itself
    pub rules: Vec<Rule>,
    // whether it is a list of named bits that ends with a 0, as far as its type is known
    pub has_spare_bits: bool,
}

// A rule that is broken, as a mark has it.
#[derive(Clone, Copy, Drop)]
pub struct BrokenRule {
    // the rule's name in a program
    pub name: &'static str,
    // the clauses that say it
    pub section: &'static str,
    // what is wrong
    pub text: &'static str,
}

impl Breaches {
    // Of what breaks nothing.
    pub fn none(alloc: Global) -> Breaches
        ensures rules { result.rules.items ≡ [] }
        ensures spare { result.has_spare_bits ≡ false }
    {
        Breaches {
            rules: Vec::new(alloc),
            has_spare_bits: false,
        }
    }

    // The rules that are broken.
    pub fn describe(&self, alloc: Global) -> Result<Vec<BrokenRule>, AllocError>
        ensures { IfOk result (λ broken. map text_in broken.items
            ≡ breaches_of self.now.rules.items self.now.has_spare_bits) }
    {
        let mut broken = Vec::new(alloc);
        for rule in &self.rules {
            broken.push(BrokenRule {
                name: rule.name(),
                section: rule.section(),
                text: rule.text(),
            })?;
        }
        if !self.has_spare_bits {
            return Ok(broken);
        }
        broken.push(BrokenRule {
            name: "NamedBits",
            section: "11.2.2",
            text: "named bits that end with 0",
        })?;
        Ok(broken)
    }
}

// What of DER the whole encoding breaks that begins the octets and stands at the place.
pub fn find_breaches(
    alloc: Global,
    left: &[u8],
    header: &Header,
    place: &Place,
) -> Result<Breaches, AllocError>
    requires front { IsAtFront left.now header.now }
    requires whole { header.now.size + header.now.announced ≤ length left.now }
    ensures rules { IfOk result (λ breaches. AreRulesFound left.now header.now breaches.rules.items) }
    ensures list { IfOk result (λ breaches. breaches.has_spare_bits ≡ true
        → EndsWithZero (contents_in left.now header.now)) }
{
    let contents = &left[header.size..header.size + header.announced];
    // whether a primitive encoding at the place is a list of named bits (X.680 22.2)
    let is_list = place
        .leaf()
        .is_some_and(|leaf| matches!(leaf.rule, ValueRule::Named));
    Ok(Breaches {
        rules: broken_rules(alloc, left, header)?,
        has_spare_bits: is_list && !header.constructed && ends_with_zero(contents),
    })
}

// Whether contents octets are those of a BIT STRING whose last bit is 0.
fn ends_with_zero(contents: &[u8]) -> bool
    ensures { result ≡ true → EndsWithZero contents.now }
{
    match contents {
        [unused, .., last] if *unused < 8 => *last / (1 << *unused) % 2 == 0,
        _ => false,
    }
}
