// What is shown of one piece of a document, and its texts.
ghost use Rattle.std.specs.Prelude.{◌≡◌, [], ◌∷◌, ◌++◌, IfOk, OnOk, min, string_bytes};
ghost use Rattle.std.specs.List.{repeat};
ghost use Rattle.der_io.specs.Characters.{space};
ghost use Rattle.dump_rows.specs.Rows.{columns_text, mark_text, size_of};

use crate::part::Place;
use std::alloc::{AllocError, Global};

// How many levels are shown by spaces and folds; deeper ones stand where the last of them does.
const MOST_LEVELS: usize = 40;

/// What is shown of one piece of a document: of an encoding, of end-of-contents octets, or of octets that begin with no
/// header.
#[derive(Clone, Copy)]
pub struct Row<'a> {
    /// How many octets of the document stand before it.
    pub offset: usize,
    /// How many octets its header has.
    pub header: usize,
    /// How many contents octets it announces, or has.
    pub contents: usize,
    /// Its length is of the indefinite form.
    pub is_indefinite: bool,
    /// How many encodings are around it.
    pub depth: usize,
    /// It stands inside octets of a string.
    pub is_inside: bool,
    /// Rows of what stands inside it follow.
    pub has_rows_inside: bool,
    /// The name of the field that it is, or of its type there, if it has one.
    pub field: Option<&'a str>,
    /// Its type, or its tag.
    pub type_name: &'a str,
    /// What is named has no other type.
    pub is_type_told: bool,
    /// What it holds.
    pub value: RowValue<'a>,
    /// What is wrong with it.
    pub fault: Option<RowFault<'a>>,
    /// The rules of DER that it breaks, in words.
    pub rules: &'a [&'a str],
}

/// What is shown of what a piece holds.
#[derive(Clone, Copy)]
pub struct RowValue<'a> {
    /// The alternative of a choice that its tag chooses.
    pub alternative: Option<&'a str>,
    /// It is constructed, which its type does not say.
    pub is_constructed: bool,
    /// Its value in words, or its octets; empty if neither is shown.
    pub text: &'a str,
    /// What stands inside its octets.
    pub inside: Inside,
    /// The name of an object identifier, and the standard that has it.
    pub identifier: Option<(&'a str, &'a str)>,
    /// What a number or bits mean.
    pub meaning: Option<&'a str>,
}

/// What stands inside the octets of a string, as far as it is shown.
#[derive(Clone, Copy)]
pub enum Inside {
    /// Nothing else.
    Octets,
    /// Encodings.
    Encodings,
    /// Octets that look like encodings.
    Guess,
}

/// What is wrong with a piece.
#[derive(Clone, Copy)]
pub enum RowFault<'a> {
    /// It has no octets.
    Missing,
    /// So many contents octets are there of those that it announces. Its value is these octets.
    CutShort { there: usize, announced: usize },
    /// This, in words.
    Other(&'a str),
}

impl<'a> Row<'a> {
    // The same without its type, if the field tells that.
    pub fn without_type(self) -> Row<'a> {
        match (self.is_type_told, self.field) {
            (true, Some(_)) => Row {
                type_name: "",
                ..self
            },
            _ => self,
        }
    }

    // The same without the standard that has the name of an object identifier.
    pub fn without_standard(self) -> Row<'a> {
        let identifier = match self.value.identifier {
            Some((name, _)) => Some((name, "")),
            None => None,
        };
        let value = RowValue {
            identifier,
            ..self.value
        };
        Row { value, ..self }
    }

    // The level at which it stands.
    pub fn level(&self) -> usize
        ensures { result ≡ min self.now.depth 40 }
    {
        self.depth.min(MOST_LEVELS)
    }

    // Whether rows inside it follow that fold.
    pub fn is_fold(&self) -> bool {
        self.has_rows_inside && self.depth < MOST_LEVELS
    }

    // Where its octets stand.
    pub fn place(&self) -> Place
        ensures { result.contents ≡ size_of self.now }
    {
        Place {
            offset: self.offset,
            header: self.header,
            contents: (!self.is_indefinite).then_some(self.contents),
        }
    }

    // Pushes its offset, the sizes of its header and of its contents, and the spaces for its level. Inside octets of a
    // string `>` stands before the offset.
    pub fn push_columns(&self, out: &mut String) -> Result<(), AllocError>
        ensures { OnOk result (string_bytes out.new ≡ string_bytes out.old ++ columns_text self.now) }
    {
        let (offset, header) = (self.offset, self.header);
        match self.is_inside {
            true => write!(out, ">{offset:>6} {header:>2} ")?,
            false => write!(out, "{offset:>7} {header:>2} ")?,
        }
        match self.place().contents {
            Some(size) => write!(out, "{size:>7}  ")?,
            None => out.push_str("    inf  ")?,
        }
        push_spaces(self.level(), out)
    }

    // The name of its field, as it stands before the type, if that is shown.
    pub fn field_text(&self, alloc: Global) -> Result<String, AllocError> {
        match (self.field, self.type_name) {
            (Some(name), "") => String::from_str(alloc, name),
            (Some(name), _) => format!(in alloc; "{name} "),
            (None, _) => Ok(String::new(alloc)),
        }
    }

    // What it holds, as it stands behind the type.
    pub fn value_text(&self, alloc: Global) -> Result<String, AllocError> {
        let value = &self.value;
        let mut text = String::with_capacity(alloc, value.text.len().saturating_add(1))?;
        if let Some(name) = value.alternative {
            write!(text, " {name}")?;
        }
        if value.is_constructed {
            text.push_str(", constructed")?;
        }
        match self.fault {
            Some(RowFault::CutShort { .. }) => {}
            _ => write_behind(&mut text, value.is_constructed, value.text)?,
        }
        match value.inside {
            Inside::Octets => {}
            Inside::Encodings => text.push_str(", containing")?,
            Inside::Guess => text.push_str(", containing (guessed)")?,
        }
        match value.identifier {
            Some((name, "")) => write!(text, " {name}")?,
            Some((name, standard)) => write!(text, " {name} ({standard})")?,
            None => {}
        }
        if let Some(meaning) = value.meaning {
            write!(text, " ({meaning})")?;
        }
        Ok(text)
    }

    // What is wrong with it.
    pub fn fault_text(&self, alloc: Global) -> Result<String, AllocError> {
        match self.fault {
            None => Ok(String::new(alloc)),
            Some(RowFault::Missing) => String::from_str(alloc, " is missing (Incomplete)"),
            Some(RowFault::CutShort { there, announced }) => {
                let mut text = format!(in alloc; " (truncated: {there} of {announced} bytes)")?;
                write_behind(&mut text, true, self.value.text)?;
                Ok(text)
            }
            Some(RowFault::Other(message)) => format!(in alloc; ": {message}"),
        }
    }

    // The mark of the rules of DER that it breaks.
    pub fn mark_text(&self, alloc: Global) -> Result<String, AllocError>
        ensures { IfOk result (λ text. string_bytes text ≡ mark_text (λ r. r.now) self.now.rules.now) }
    {
        if self.rules.is_empty() {
            return Ok(String::new(alloc));
        }
        let words = self.rules.join(alloc, ", ")?;
        format!(in alloc; " (not DER: {words})")
    }
}

// A value, if there is one, behind a space, and behind a colon where words stand before it.
fn write_behind(out: &mut String, has_colon: bool, value: &str) -> Result<(), AllocError> {
    match (value, has_colon) {
        ("", _) => Ok(()),
        (_, true) => write!(out, ": {value}"),
        (_, false) => write!(out, " {value}"),
    }
}

// Pushes two spaces for each level.
fn push_spaces(levels: usize, out: &mut String) -> Result<(), AllocError>
    ensures { OnOk result (string_bytes out.new ≡ string_bytes out.old ++ repeat levels (space ∷ space ∷ [])) }
{
    for _ in 0..levels {
        out.push_str("  ")?;
    }
    Ok(())
}
