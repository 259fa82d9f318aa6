// The line of a field, while the pieces inside the field are seen.
use crate::forms::{Part, Row, general_part};
use crate::leaf::{bit_count, characters_of, identifier_of, item_of, text_of};
use crate::name::NameText;
use asn1_numbers::number::big_int::BigInt;
use dump_names::Names;
use dump_values::value::LeafValue;
use dump_walk::piece::Piece;
use jiff::civil::DateTime;
use std::alloc::{AllocError, Global};

// What is said of an authority.
pub const AUTHORITY: &str = "yes";

// The line of a field that has not ended.
#[derive(Drop)]
pub struct OpenLine {
    alloc: Global,
    pub row: Row,
    // the place of the line among those of all rows
    pub place: usize,
    // how many elements are around the field
    pub depth: usize,
    // what is shown so far, if something is
    text: Option<String>,
    // the name that has not ended
    name: NameText,
}

impl OpenLine {
    // Before what is inside a field.
    pub fn new(alloc: Global, row: Row, place: usize, depth: usize) -> OpenLine {
        OpenLine {
            alloc,
            row,
            place,
            depth,
            text: None,
            name: NameText::new(alloc),
        }
    }

    // Sees a piece of the field, which is this encoding and is shown in this way.
    pub fn see(
        &mut self,
        names: &Names,
        now: Option<DateTime>,
        part: Part,
        piece: &Piece<'_>,
        encoding: &[u8],
    ) -> Result<(), AllocError> {
        match (part, piece.value()) {
            (Part::Modulus, Some(LeafValue::Integer(modulus))) => self.push_modulus(modulus),
            (Part::PathLength, Some(LeafValue::Integer(most))) => self.push_path_length(most),
            (Part::Item, _) => self.push_item(identifier_of(piece, names)),
            (
                Part::Serial
                | Part::Octets(_)
                | Part::Moment(_)
                | Part::Amount(_, _)
                | Part::Size
                | Part::Flags
                | Part::Characters
                | Part::NumberName
                | Part::Alternative,
                _,
            ) => self.see_item(names, part, piece),
            (
                Part::RelativeName
                | Part::AttributeType
                | Part::AttributeValue
                | Part::GeneralName(_)
                | Part::GeneralOctets(_)
                | Part::TypeId
                | Part::OtherValue
                | Part::FieldName(_),
                _,
            ) => self.see_name(names, part, piece, encoding),
            _ => {
                self.text = text_of(self.alloc, names, now, part, piece)?.or(self.text.take());
                Ok(())
            }
        }
    }

    // Sees a piece that is shown as an item.
    fn see_item(&mut self, names: &Names, part: Part, piece: &Piece<'_>) -> Result<(), AllocError> {
        match item_of(self.alloc, names, part, piece)? {
            Some(item) => self.push_item(&item),
            None => Ok(()),
        }
    }

    // Sees a piece of a name.
    fn see_name(
        &mut self,
        names: &Names,
        part: Part,
        piece: &Piece<'_>,
        encoding: &[u8],
    ) -> Result<(), AllocError> {
        match part {
            Part::RelativeName => {
                self.name.begin_relative();
                Ok(())
            }
            Part::AttributeType => self.name.push_type(names, piece),
            Part::AttributeValue => self.name.push_value(piece, encoding),
            Part::TypeId => self.push(identifier_of(piece, names)),
            Part::OtherValue => self.push_other_value(piece),
            Part::FieldName(word) => self.push_field_name(names, word, piece, encoding),
            _ => {
                self.push_item("")?;
                self.push_general(names, part, piece, encoding)
            }
        }
    }

    fn push(&mut self, text: &str) -> Result<(), AllocError> {
        match &mut self.text {
            Some(shown) => shown.push_str(text),
            None => {
                self.text = Some(String::from_str(self.alloc, text)?);
                Ok(())
            }
        }
    }

    // Pushes an item, behind a comma if it is not the first.
    fn push_item(&mut self, text: &str) -> Result<(), AllocError> {
        self.push_name()?;
        if !matches!(self.text.as_deref(), None | Some("")) {
            self.push(", ")?;
        }
        self.push(text)
    }

    // Pushes the name that has ended, if there is one.
    fn push_name(&mut self) -> Result<(), AllocError> {
        match &mut self.text {
            Some(text) => self.name.push_to(text),
            None => Ok(()),
        }
    }

    // How many bits a modulus has, behind the kind of its key.
    fn push_modulus(&mut self, modulus: &BigInt) -> Result<(), AllocError> {
        let kind = if self.text.is_none() { "RSA" } else { "" };
        let bits = bit_count(modulus.octets());
        self.push(&format!(in self.alloc; "{kind}, {bits} bits")?)
    }

    // How many others may stand below an authority, where the number is not too large to be meant.
    fn push_path_length(&mut self, most: &BigInt) -> Result<(), AllocError> {
        match most.to_i128() {
            Some(most) if self.text.as_deref() == Some(AUTHORITY) => {
                self.push(&format!(in self.alloc; ", with {most} below it at most")?)
            }
            _ => Ok(()),
        }
    }

    // Pushes a GeneralName that is a field with another name, behind a word and a space.
    fn push_field_name(
        &mut self,
        names: &Names,
        word: &str,
        piece: &Piece<'_>,
        encoding: &[u8],
    ) -> Result<(), AllocError> {
        let named = piece.names(&names.shapes);
        let alternative = named.and_then(|named| named.alternative);
        let Some(part) = alternative.and_then(general_part) else {
            return Ok(());
        };
        self.push(word)?;
        self.push(" ")?;
        self.push_general(names, part, piece, encoding)
    }

    // Pushes a GeneralName behind the word for its kind.
    fn push_general(
        &mut self,
        names: &Names,
        part: Part,
        piece: &Piece<'_>,
        encoding: &[u8],
    ) -> Result<(), AllocError> {
        match part {
            Part::GeneralName(kind) => {
                self.push(kind)?;
                self.push_general_name(names, piece)
            }
            Part::GeneralOctets(kind) => {
                self.push(kind)?;
                let octets = encoding.get(piece.sizes().header..).unwrap_or(&[]);
                self.push(&hex::encode(self.alloc, octets)?)
            }
            _ => Ok(()),
        }
    }

    // Pushes the value of an otherName behind its type, if it is characters.
    fn push_other_value(&mut self, piece: &Piece<'_>) -> Result<(), AllocError> {
        let Some(characters) = characters_of(piece) else {
            return Ok(());
        };
        self.push(":")?;
        self.push(characters)
    }

    // The value of a GeneralName (RFC 5280, section 4.2.1.6). Of one that holds others its parts follow.
    fn push_general_name(&mut self, names: &Names, piece: &Piece<'_>) -> Result<(), AllocError> {
        match piece.value() {
            Some(LeafValue::Text(text)) => self.push(text),
            Some(LeafValue::Address(address)) => self.push(&address.text(self.alloc)?),
            Some(LeafValue::Identifier(_)) => self.push(identifier_of(piece, names)),
            _ => self.push(&hex::encode(self.alloc, piece.contents())?),
        }
    }

    // What is shown of the field, if something is.
    pub fn into_text(mut self) -> Result<Option<String>, AllocError> {
        self.push_name()?;
        Ok(self.text)
    }
}
