// Distinguished names as RFC 4514 writes them.
use crate::leaf::{characters_of, identifier_of, name_of, number_of};
use der_io::is_shown;
use dump_names::Names;
use dump_walk::piece::Piece;
use std::alloc::{AllocError, Global};

// The attributes of a name so far.
#[derive(Drop)]
pub struct NameText {
    alloc: Global,
    // the texts of the attributes, and between two what separates them
    texts: Vec<String>,
    // what separates the next attribute from the last: a comma, if it is the first of its relative name
    separator: &'static str,
    // whether the type of the last attribute has a name
    has_name: bool,
}

impl NameText {
    pub fn new(alloc: Global) -> NameText {
        NameText {
            alloc,
            texts: Vec::new(alloc),
            separator: ",",
            has_name: false,
        }
    }

    // Begins a relative name.
    pub fn begin_relative(&mut self) {
        self.separator = ",";
    }

    // Begins an attribute of the type that the piece is.
    pub fn push_type(&mut self, names: &Names, piece: &Piece<'_>) -> Result<(), AllocError> {
        let short = number_of(piece).and_then(short_name);
        let name = short.unwrap_or(identifier_of(piece, names));
        self.has_name = short.is_some() || name_of(piece, names).is_some();
        if !self.texts.is_empty() {
            self.texts
                .push(String::from_str(self.alloc, self.separator)?)?;
        }
        self.texts.push(String::from_str(self.alloc, name)?)?;
        self.separator = "+";
        Ok(())
    }

    // Pushes the value of the attribute that was begun last, a piece: its characters, if it has some and its type has a
    // name, and else a number sign and its encoding in hex digits (RFC 4514, section 2.4); `?` of one of the indefinite
    // form.
    pub fn push_value(&mut self, piece: &Piece<'_>, encoding: &[u8]) -> Result<(), AllocError> {
        let Some(text) = self.texts.last_mut() else {
            return Ok(());
        };
        match characters_of(piece) {
            Some(characters) if self.has_name => {
                text.push('=')?;
                push_escaped(characters, text)
            }
            _ if encoding.is_empty() => text.push_str("=?"),
            _ => write!(text, "=#{}", hex::encode_upper(self.alloc, encoding)?),
        }
    }

    // Ends the name and pushes it: its relative names from the last to the first, with commas between them, and the
    // attributes of each from the last to the first, with plus signs between them (RFC 4514, sections 2.1 and 2.2).
    pub fn push_to(&mut self, out: &mut String) -> Result<(), AllocError> {
        for text in self.texts.iter().rev() {
            out.push_str(text)?;
        }
        self.texts.clear();
        self.begin_relative();
        Ok(())
    }
}

// The short names that RFC 4514 has (section 3), by the components of their object identifiers.
fn short_name(number: &str) -> Option<&'static str> {
    match number {
        "2.5.4.3" => Some("CN"),
        "2.5.4.6" => Some("C"),
        "2.5.4.7" => Some("L"),
        "2.5.4.8" => Some("ST"),
        "2.5.4.9" => Some("STREET"),
        "2.5.4.10" => Some("O"),
        "2.5.4.11" => Some("OU"),
        "0.9.2342.19200300.100.1.1" => Some("UID"),
        "0.9.2342.19200300.100.1.25" => Some("DC"),
        _ => None,
    }
}

// Pushes characters with a backslash where RFC 4514 asks for one (section 2.4): a space or number sign at the
// beginning, a space at the end, and six characters anywhere. Of a character that is not shown each octet of its UTF-8
// is two hex digits behind a backslash.
fn push_escaped(characters: &str, text: &mut String) -> Result<(), AllocError> {
    for (at, c) in characters.char_indices() {
        let is_last = at.saturating_add(c.len_utf8()) == characters.len();
        match c {
            ' ' if at == 0 || is_last => text.push('\\')?,
            '#' if at == 0 => text.push('\\')?,
            '"' | '+' | ',' | ';' | '<' | '>' | '\\' => text.push('\\')?,
            _ => {}
        }
        if is_shown(c) {
            text.push(c)?;
            continue;
        }
        for octet in c.encode_utf8(&mut [0; 4]).as_bytes() {
            write!(text, "\\{octet:02X}")?;
        }
    }
    Ok(())
}
