// Members of objects.
ghost use Rattle.std.specs.Prelude.{◌≡◌, IfOk, true};
ghost use Rattle.der_io.specs.Output.{IsWritten};
ghost use Rattle.dump_json.specs.Grammar.{IsOpenObject, comma_if};
ghost use Rattle.dump_json.specs.Lines.{BeginsMember, Turns};

use crate::value::{Value, write_value};
use der_io::{StreamFault, write_part};
use std::io::Write;

// The name of a member.
#[derive(Clone, Copy, Drop)]
pub enum Name {
    Blocks,
    Class,
    Code,
    Constructed,
    Depth,
    Fault,
    Field,
    File,
    Guessed,
    Header,
    Label,
    Name,
    NotDer,
    Octets,
    Of,
    Offset,
    Path,
    Rule,
    Section,
    Shown,
    Size,
    Tag,
    Text,
    Type,
    Value,
}

impl Name {
    // What stands before the value of a member: a comma, if others stand before it, its name and a colon.
    pub fn begin(self, is_later: bool) -> &'static [u8]
        ensures { BeginsMember is_later result.now }
    {
        let begin = self.later_begin();
        if is_later { begin } else { &begin[1..] }
    }

    // What stands before the value of a member that others stand before.
    fn later_begin(self) -> &'static [u8]
        ensures { BeginsMember true result.now }
    {
        match self {
            Name::Blocks => b",\"blocks\":",
            Name::Class => b",\"class\":",
            Name::Code => b",\"code\":",
            Name::Constructed => b",\"constructed\":",
            Name::Depth => b",\"depth\":",
            Name::Fault => b",\"fault\":",
            Name::Field => b",\"field\":",
            Name::File => b",\"file\":",
            Name::Guessed => b",\"guessed\":",
            Name::Header => b",\"header\":",
            Name::Label => b",\"label\":",
            Name::Name => b",\"name\":",
            Name::NotDer => b",\"not_der\":",
            Name::Octets => b",\"octets\":",
            Name::Of => b",\"of\":",
            Name::Offset => b",\"offset\":",
            Name::Path => b",\"path\":",
            Name::Rule => b",\"rule\":",
            Name::Section => b",\"section\":",
            Name::Shown => b",\"shown\":",
            Name::Size => b",\"size\":",
            Name::Tag => b",\"tag\":",
            Name::Text => b",\"text\":",
            Name::Type => b",\"type\":",
            Name::Value => b",\"value\":",
        }
    }
}

// The name of a member, and its value, if it is there.
pub type Member<'a> = (Name, Option<Value<'a>>);

// Writes those members of an object that are there; whether others stand before. Returns whether one stands in it then.
pub fn write_members<W: Write>(
    members: &[Member<'_>],
    is_later: bool,
    out: &mut W,
) -> Result<bool, StreamFault>
    ensures { IfOk result (λ later. IsWritten (Turns (IsOpenObject is_later) (IsOpenObject later))
        (W.contents out.old) (W.contents out.new)) }
{
    let mut has_some = is_later;
    for (name, value) in members {
        has_some = write_member(*name, value, has_some, out)?;
    }
    Ok(has_some)
}

fn write_member<W: Write>(
    name: Name,
    value: &Option<Value<'_>>,
    is_later: bool,
    out: &mut W,
) -> Result<bool, StreamFault>
    ensures { IfOk result (λ later. IsWritten (Turns (IsOpenObject is_later) (IsOpenObject later))
        (W.contents out.old) (W.contents out.new)) }
{
    let Some(value) = value else {
        return Ok(is_later);
    };
    write_part(out, name.begin(is_later))?;
    write_value(value, out)?;
    Ok(true)
}

// A comma, unless nothing stands before it.
pub fn comma(is_later: bool) -> &'static [u8]
    ensures { result.now ≡ comma_if is_later }
{
    if is_later { b"," } else { &[] }
}
