// Strings of characters.
ghost use Rattle.std.specs.Prelude.{◌≡◌, ◌≢◌, ℕ, List, IfOk, IfErr, MatchOption, MatchResult, string_bytes};
ghost use Rattle.std.specs.Str.{chars};
ghost use Rattle.asn1_blocks.specs.Tree.{shape, leaf, text};
ghost use Rattle.asn1_blocks.specs.View.{view};
ghost use Rattle.asn1_headers.specs.declared.error.ASN1EncodeErr.TheVariants.{OutOfMemory as no_memory};
ghost use Rattle.asn1_leaves.specs.StringKind.{StringKind, utf8, printable, teletex, ia5, universal, bmp};
ghost use Rattle.asn1_types.specs.declared.TypeErr.TheVariants.{Shape};
ghost use Rattle.asn1_types.specs.Laws.{text-distinct};

use crate::{Asn1Type, Asn1Write, TypeErr};
use asn1_blocks::block::ASN1Block;
use asn1_headers::error::ASN1EncodeErr;
use std::alloc::Global;
use std::marker::{Model, PhantomData};

/// One of the six kinds of string that are read as text.
pub trait TextKind {
    /// The kind.
    ghost kind: { StringKind };

    /// The characters of a block that is a string of this kind.
    fn text_of(block: &ASN1Block) -> Option<&str>
        ensures { MatchOption result
            ((xs : List ℕ) → shape (view block.now) ≢ leaf tt (text kind xs))
            (λ s. shape (view block.now) ≡ leaf tt (text kind (chars s.now))) };

    /// The string of this kind with these characters.
    fn block_of(characters: String) -> ASN1Block
        ensures { shape (view result) ≡ leaf tt (text kind (chars (string_bytes characters))) };
}

/// A string of characters of the kind `K` (X.690 8.23). Which characters come back depends on the kind: of
/// a PrintableString the 74 of X.680 table 10, of an IA5String those up to 255, and of the others all.
///
/// ```rust
/// use asn1_types::{Utf8String, Whole, WholeErr};
/// use simple_asn1::der_decode;
/// use std::alloc::Global;
///
/// // Of `0C 05 4A C3 B6 72 67` the text `Jörg`.
/// fn name(alloc: Global, document: &[u8]) -> Result<String, WholeErr> {
///     let read: Whole<Utf8String> = der_decode(alloc, document)?;
///     Ok(read.value.characters)
/// }
/// ```
#[derive(Drop)]
pub struct Text<K> {
    /// The characters.
    pub characters: String,
    kind: PhantomData<K>,
}

impl<K> Model for Text<K> {
    ghost use Rattle.std.specs.Prelude.{List, ℕ, string_bytes};
    ghost use Rattle.std.specs.Str.{chars};

    ghost Value = { List ℕ };

    ghost view = { λ x. chars (string_bytes x.characters) };
}

impl<K> Text<K> {
    /// The string of these characters.
    pub fn new(characters: String) -> Text<K>
        ensures { result ≡ chars (string_bytes characters) }
    {
        Text {
            characters,
            kind: PhantomData,
        }
    }
}

impl<K: TextKind> Asn1Type for Text<K> {
    ghost tree = { λ x. leaf tt (text K.kind x) };

    fn read(alloc: Global, block: &ASN1Block) -> Result<Text<K>, TypeErr> {
        match K::text_of(block) {
            Some(characters) => {
                let characters = String::from_str(alloc, characters)?;
                Ok(Text {
                    characters,
                    kind: PhantomData,
                })
            }
            None => Err(TypeErr::Shape(block.offset())),
        }
    }

    ghost distinct = { text-distinct K.kind };
}

impl<K: TextKind> Asn1Write for Text<K> {
    fn write(&self, alloc: Global) -> Result<ASN1Block, ASN1EncodeErr> {
        let characters = String::from_str(alloc, &self.characters)?;
        Ok(K::block_of(characters))
    }
}

/// A UTF8String.
pub type Utf8String = Text<Utf8>;

/// The kind of a UTF8String.
#[derive(Drop)]
pub struct Utf8 {}

impl TextKind for Utf8 {
    ghost kind = { utf8 };

    fn text_of(block: &ASN1Block) -> Option<&str> {
        match block {
            ASN1Block::UTF8String(_, characters) => Some(characters),
            _ => None,
        }
    }

    fn block_of(characters: String) -> ASN1Block {
        ASN1Block::UTF8String(0, characters)
    }
}

/// A PrintableString.
pub type PrintableString = Text<Printable>;

/// The kind of a PrintableString.
#[derive(Drop)]
pub struct Printable {}

impl TextKind for Printable {
    ghost kind = { printable };

    fn text_of(block: &ASN1Block) -> Option<&str> {
        match block {
            ASN1Block::PrintableString(_, characters) => Some(characters),
            _ => None,
        }
    }

    fn block_of(characters: String) -> ASN1Block {
        ASN1Block::PrintableString(0, characters)
    }
}

/// A TeletexString.
pub type TeletexString = Text<Teletex>;

/// The kind of a TeletexString.
#[derive(Drop)]
pub struct Teletex {}

impl TextKind for Teletex {
    ghost kind = { teletex };

    fn text_of(block: &ASN1Block) -> Option<&str> {
        match block {
            ASN1Block::TeletexString(_, characters) => Some(characters),
            _ => None,
        }
    }

    fn block_of(characters: String) -> ASN1Block {
        ASN1Block::TeletexString(0, characters)
    }
}

/// An IA5String.
pub type Ia5String = Text<Ia5>;

/// The kind of a IA5String.
#[derive(Drop)]
pub struct Ia5 {}

impl TextKind for Ia5 {
    ghost kind = { ia5 };

    fn text_of(block: &ASN1Block) -> Option<&str> {
        match block {
            ASN1Block::IA5String(_, characters) => Some(characters),
            _ => None,
        }
    }

    fn block_of(characters: String) -> ASN1Block {
        ASN1Block::IA5String(0, characters)
    }
}

/// A UniversalString.
pub type UniversalString = Text<Universal>;

/// The kind of a UniversalString.
#[derive(Drop)]
pub struct Universal {}

impl TextKind for Universal {
    ghost kind = { universal };

    fn text_of(block: &ASN1Block) -> Option<&str> {
        match block {
            ASN1Block::UniversalString(_, characters) => Some(characters),
            _ => None,
        }
    }

    fn block_of(characters: String) -> ASN1Block {
        ASN1Block::UniversalString(0, characters)
    }
}

/// A BMPString.
pub type BmpString = Text<Bmp>;

/// The kind of a BMPString.
#[derive(Drop)]
pub struct Bmp {}

impl TextKind for Bmp {
    ghost kind = { bmp };

    fn text_of(block: &ASN1Block) -> Option<&str> {
        match block {
            ASN1Block::BMPString(_, characters) => Some(characters),
            _ => None,
        }
    }

    fn block_of(characters: String) -> ASN1Block {
        ASN1Block::BMPString(0, characters)
    }
}
