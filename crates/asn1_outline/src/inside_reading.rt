// How the octets of a string are read into an outline, and what this lends.
ghost use Rattle.std.specs.Prelude.{◌≡◌, ◌+◌, ◌≤◌, IfErr, IfOk, IfSome, IsSomeAnd, MatchOption, None, Ok, map, option_map, slice_get, slice_range};
ghost use Rattle.asn1_headers.specs.Reading.{OutOfMemoryOrAt, ReadsEachLocated, RejectsAt};
ghost use Rattle.asn1_outline.specs.Entries.{AreEntriesOf, IsOutline};
ghost use Rattle.asn1_outline.specs.InStrings.{FirstFaultInString, HasDocumentInString, HasNoString, HasString, StandsAt, later};
ghost use Rattle.asn1_outline.specs.Insides.{document_around, entries_inside, entry_around, octets_inside, outline_in, start_in};
ghost use Rattle.asn1_outline.specs.Outlines.{entries_in, octets_in};
ghost use Rattle.asn1_outline.specs.Shapes.{IsWithin, contents_octets, encoding_octets};
ghost use Rattle.asn1_outline.specs.Triple.{entry_at};

use crate::entry::Entry;
use crate::inside::Inside;
use crate::iter::EntriesInside;
use crate::outline::Outline;
use asn1_headers::error::LocatedErr;
use asn1_headers::header::ASN1Class;
use asn1_headers::tags::{BIT_STRING, OCTET_STRING};
use std::alloc::Global;

impl<'a> Outline<'a> {
    /// Reads the octets of the string at the index into an outline; `None` past the end, and for a block that is no
    /// string. Strings are primitive encodings: OCTET STRINGs, BIT STRINGs without unused bits, and all blocks of other
    /// classes, because an implicit tag hides their type. Of a BIT STRING under an implicit tag, the octet that counts
    /// unused bits is read as the first of the string.
    ///
    /// It takes memory for the entries of the blocks inside, and copies no octets.
    ///
    /// # Errors
    /// The errors of [`Outline::from_der`] on the octets of the string. The offset is that in the document.
    pub fn inside(&self, alloc: Global, index: usize) -> Result<Option<Inside<'a>>, LocatedErr>
        ensures string { IfOk result (λ found. IfSome found (λ inside. HasString (octets_in self.now)
            (entry_at (entries_in self.now) index) (start_in inside) (octets_inside inside))) }
        ensures around { IfOk result (λ found. IfSome found (λ inside.
            document_around inside ≡ octets_in self.now)) }
        ensures document { IfOk result (λ found. IfSome found (λ inside.
            IsOutline (octets_inside inside) (entries_inside inside))) }
        ensures none { HasNoString (octets_in self.now) (entry_at (entries_in self.now) index)
            → result ≡ Ok None }
        ensures fault { IfErr result (OutOfMemoryOrAt
            (FirstFaultInString (octets_in self.now) (entry_at (entries_in self.now) index))) }

        // Memory aside, each document in a string has its entries, and other strings are refused with the first fault
        // of their octets.
        ensures accepts { ReadsEachLocated result
            (HasDocumentInString (octets_in self.now) (entry_at (entries_in self.now) index))
            (λ bs found. IsSomeAnd found (λ inside.
            AreEntriesOf (octets_inside inside) bs (entries_inside inside))) }
        ensures refuses { RejectsAt result
            (FirstFaultInString (octets_in self.now) (entry_at (entries_in self.now) index)) }
    {
        match self.entries.get(index) {
            Some(entry) => read_string(alloc, self.octets, entry),
            None => Ok(None),
        }
    }
}

impl<'a> Inside<'a> {
    /// The outline of the octets of the string. Its offsets count from the first of these octets.
    pub fn outline(&self) -> &Outline<'a>
        ensures { result.now ≡ outline_in self.now }
    {
        &self.outline
    }

    /// The octets of the document around.
    pub fn document(&self) -> &'a [u8]
        ensures { result.now ≡ document_around self.now }
    {
        self.document
    }

    /// The offset of the first octet of the string, from the start of the document around.
    pub fn start(&self) -> usize
        ensures start { result ≡ start_in self.now }
        ensures stands { StandsAt (document_around self.now) result (octets_inside self.now) }
    {
        self.start
    }

    /// The entry at the index, with its offset from the start of the document around; `None` past the end. Its `next`
    /// and `depth` are those in the outline.
    pub fn entry(&self, index: usize) -> Option<Entry>
        ensures entry { result ≡ option_map (later (start_in self.now))
            (slice_get (entries_inside self.now) index) }
        ensures encoding { IfSome result (λ entry. encoding_octets (document_around self.now) entry
            ≡ encoding_octets (octets_inside self.now) (entry_at (entries_inside self.now) index)) }
        ensures contents { IfSome result (λ entry. contents_octets (document_around self.now) entry
            ≡ contents_octets (octets_inside self.now) (entry_at (entries_inside self.now) index)) }
    {
        let entry = self.outline.entries.get(index)?;
        Some(entry.later(self.start))
    }

    /// The entries, in order, each with its offset from the start of the document around.
    pub fn entries(&self) -> EntriesInside<'_>
        ensures { result ≡ map (later (start_in self.now)) (entries_inside self.now) }
    {
        EntriesInside::over(self.outline.entries.as_slice(), self.start)
    }

    /// Reads the octets of the string at the index, as [`Outline::inside`] does. All offsets, that of an error too, are
    /// those in the document around.
    ///
    /// # Errors
    /// Those of [`Outline::inside`].
    pub fn inside(&self, alloc: Global, index: usize) -> Result<Option<Inside<'a>>, LocatedErr>
        ensures string { IfOk result (λ found. IfSome found (λ inside. HasString (document_around self.now)
            (entry_around self.now index) (start_in inside) (octets_inside inside))) }
        ensures around { IfOk result (λ found. IfSome found (λ inside.
            document_around inside ≡ document_around self.now)) }
        ensures document { IfOk result (λ found. IfSome found (λ inside.
            IsOutline (octets_inside inside) (entries_inside inside))) }
        ensures none { HasNoString (document_around self.now) (entry_around self.now index) → result ≡ Ok None }
        ensures fault { IfErr result (OutOfMemoryOrAt
            (FirstFaultInString (document_around self.now) (entry_around self.now index))) }
        ensures accepts { ReadsEachLocated result
            (HasDocumentInString (document_around self.now) (entry_around self.now index))
            (λ bs found. IsSomeAnd found (λ inside.
            AreEntriesOf (octets_inside inside) bs (entries_inside inside))) }
        ensures refuses { RejectsAt result
            (FirstFaultInString (document_around self.now) (entry_around self.now index)) }
    {
        match self.outline.entries.get(index) {
            Some(entry) => read_string(alloc, self.document, &entry.later(self.start)),
            None => Ok(None),
        }
    }
}

// The outline of the octets of the entry's string.
fn read_string<'a>(
    alloc: Global,
    document: &'a [u8],
    entry: &Entry,
) -> Result<Option<Inside<'a>>, LocatedErr>
    requires { IsWithin document.now entry.now }
    ensures string { IfOk result (λ found. IfSome found (λ inside.
        HasString document.now entry.now (start_in inside) (octets_inside inside))) }
    ensures around { IfOk result (λ found. IfSome found (λ inside. document_around inside ≡ document.now)) }
    ensures document { IfOk result (λ found. IfSome found (λ inside.
        IsOutline (octets_inside inside) (entries_inside inside))) }
    ensures none { HasNoString document.now entry.now → result ≡ Ok None }
    ensures fault { IfErr result (OutOfMemoryOrAt (FirstFaultInString document.now entry.now)) }
    ensures accepts { ReadsEachLocated result (HasDocumentInString document.now entry.now)
        (λ bs found. IsSomeAnd found (λ inside.
        AreEntriesOf (octets_inside inside) bs (entries_inside inside))) }
    ensures refuses { RejectsAt result (FirstFaultInString document.now entry.now) }
{
    let Some(start) = string_start(document, entry) else {
        return Ok(None);
    };
    let end = entry.offset + entry.header + entry.contents;
    match Outline::from_der(alloc, &document[start..end]) {
        Ok(outline) => Ok(Some(Inside {
            outline,
            document,
            start,
        })),
        Err(located) => Err(LocatedErr {
            error: located.error,
            offset: start.saturating_add(located.offset),
        }),
    }
}

// Where the octets of the entry's string begin.
fn string_start(document: &[u8], entry: &Entry) -> Option<usize>
    requires { IsWithin document.now entry.now }
    ensures { MatchOption result (HasNoString document.now entry.now)
        (λ start. (start ≤ entry.now.offset + entry.now.header + entry.now.contents)
        × HasString document.now entry.now start
        (slice_range document.now start (entry.now.offset + entry.now.header + entry.now.contents))) }
{
    if entry.constructed {
        return None;
    }
    let start = entry.offset + entry.header;
    match entry.class {
        ASN1Class::Universal => match entry.tag {
            OCTET_STRING => Some(start),
            BIT_STRING => match entry.contents_in(document) {
                [0, ..] => Some(start + 1),
                _ => None,
            },
            _ => None,
        },
        _ => Some(start),
    }
}
