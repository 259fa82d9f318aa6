// Blocks at all depths, in a loop over the lists that are open.
use crate::scalars::{
    bracketed, characters_text, components_text, integer_text, moment_text, tag_text,
};
use simple_asn1::{ASN1Block, ASN1Class};
use std::alloc::{AllocError, Global};
use std::slice;

// A list of blocks that is being written: those that are left, what stands before the next one, and what ends the list.
#[derive(Drop)]
pub struct OpenList<'a> {
    left: &'a [ASN1Block],
    separator: &'static str,
    end: &'static str,
}

/// The blocks with their offsets, with `, ` between two of them.
///
/// Memory is taken for the text and for a list of one entry for each level of nesting; the stack doesn't grow with the
/// nesting.
///
/// # Errors
/// Memory ran out.
pub fn blocks_text(alloc: Global, blocks: &[ASN1Block]) -> Result<String, AllocError> {
    let mut text = String::new(alloc);
    let mut lists = Vec::new(alloc);
    lists.push(OpenList {
        left: blocks,
        separator: "",
        end: "",
    })?;
    for _ in 0..u64::MAX {
        let Some(list) = lists.pop() else {
            return Ok(text);
        };
        write_next(alloc, &mut text, &mut lists, list)?;
    }
    Err(AllocError)
}

// Writes what comes next in a list: its end, or the front of a block. Then what is left of the list is open again, and
// the blocks inside that block are.
fn write_next<'a>(
    alloc: Global,
    text: &mut String,
    lists: &mut Vec<OpenList<'a>>,
    list: OpenList<'a>,
) -> Result<(), AllocError> {
    let Some((block, left)) = list.left.split_first() else {
        return text.push_str(list.end);
    };
    text.push_str(list.separator)?;
    text.push_str(&front(alloc, block)?)?;
    lists.push(OpenList {
        left,
        separator: ", ",
        end: list.end,
    })?;
    lists.push(inside(block))?;
    Ok(())
}

// The list of the blocks right inside a block, which ends with the end of the block. Most blocks have none.
fn inside(block: &ASN1Block) -> OpenList<'_> {
    let (left, end): (&[ASN1Block], &'static str) = match block {
        ASN1Block::Sequence(_, items) | ASN1Block::Set(_, items) => (items, "])"),
        ASN1Block::Explicit(_, _, _, item) => (slice::from_ref(item), ")"),
        _ => (&[], ")"),
    };
    OpenList {
        left,
        separator: "",
        end,
    }
}

// What stands before the blocks inside a block: the name of its variant, and its fields.
fn front(alloc: Global, block: &ASN1Block) -> Result<String, AllocError> {
    let offset = block.offset();
    let (name, field) = match block {
        ASN1Block::Sequence(_, _) => return format!(in alloc; "Sequence({offset}, ["),
        ASN1Block::Set(_, _) => return format!(in alloc; "Set({offset}, ["),
        ASN1Block::Explicit(class, _, tag, _) => {
            let (class, tag) = (class_name(*class), tag_text(alloc, tag)?);
            return format!(in alloc; "Explicit({class}, {offset}, {tag}, ");
        }
        ASN1Block::Unknown(class, constructed, _, tag, octets) => {
            let (class, tag) = (class_name(*class), tag_text(alloc, tag)?);
            let octets = bracketed(alloc, octets)?;
            return format!(in alloc; "Unknown({class}, {constructed}, {offset}, {tag}, {octets}");
        }
        ASN1Block::Null(_) => return format!(in alloc; "Null({offset}"),
        ASN1Block::Boolean(_, value) => ("Boolean", format!(in alloc; "{value}")?),
        ASN1Block::Integer(_, n) => ("Integer", integer_text(alloc, n)?),
        ASN1Block::BitString(_, bits, octets) => {
            let octets = bracketed(alloc, octets)?;
            ("BitString", format!(in alloc; "{bits}, {octets}")?)
        }
        ASN1Block::OctetString(_, octets) => ("OctetString", bracketed(alloc, octets)?),
        ASN1Block::ObjectIdentifier(_, oid) => ("ObjectIdentifier", components_text(alloc, oid)?),
        ASN1Block::UTF8String(_, s) => ("UTF8String", characters_text(alloc, s)?),
        ASN1Block::PrintableString(_, s) => ("PrintableString", characters_text(alloc, s)?),
        ASN1Block::TeletexString(_, s) => ("TeletexString", characters_text(alloc, s)?),
        ASN1Block::IA5String(_, s) => ("IA5String", characters_text(alloc, s)?),
        ASN1Block::UniversalString(_, s) => ("UniversalString", characters_text(alloc, s)?),
        ASN1Block::BMPString(_, s) => ("BMPString", characters_text(alloc, s)?),
        ASN1Block::UTCTime(_, moment) => ("UTCTime", moment_text(alloc, moment)?),
        ASN1Block::GeneralizedTime(_, moment) => ("GeneralizedTime", moment_text(alloc, moment)?),
    };
    format!(in alloc; "{name}({offset}, {field}")
}

/// How a class is written.
pub fn class_name(class: ASN1Class) -> &'static str {
    match class {
        ASN1Class::Universal => "Universal",
        ASN1Class::Application => "Application",
        ASN1Class::ContextSpecific => "CS",
        ASN1Class::Private => "Private",
    }
}
