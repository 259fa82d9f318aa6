// How headers are read, and what they lend.
ghost use Rattle.std.specs.Prelude.{◌≡◌, ◌<◌, ◌≤◌, IfErr, IfOk, IsNone, IsSomeAnd, get_or, length};
ghost use Rattle.asn1_headers.specs.Reading.{OutOfMemoryOrAt, ReadsEachLocated, RejectsAt};
ghost use Rattle.asn1_outline.specs.Entries.{no_entry};
ghost use Rattle.asn1_outline.specs.Walked.{walked_entries, walked_octets};
ghost use Rattle.asn1_outline.specs.Shapes.{FirstHeaderFaultAt, HasShapes, Shapes, contents_octets, encoding_octets, entries_of};

use crate::entry::Entry;
use crate::header_walk::list_headers;
use crate::headers::Headers;
use asn1_headers::error::LocatedErr;
use std::alloc::Global;

impl<'a> Headers<'a> {
    /// Reads octets that are encodings by their headers (X.690 8.1.1), one or more, in linear time. It takes memory for
    /// the entries and for the encodings that are open at a time. Stack use does not grow with nesting.
    ///
    /// # Errors
    /// `OutOfMemory`; `EmptyBuffer` of no octets; else the first fault of a header, `Incomplete` or `LengthTooLarge`,
    /// with the offset of its encoding.
    pub fn from_der(alloc: Global, octets: &'a [u8]) -> Result<Headers<'a>, LocatedErr>
        ensures document { IfOk result (λ headers. (all : Shapes) × HasShapes octets.now all
            × (walked_entries headers ≡ entries_of 0 0 all)) }
        ensures lent { IfOk result (λ headers. walked_octets headers ≡ octets.now) }
        ensures fault { IfErr result (OutOfMemoryOrAt (FirstHeaderFaultAt octets.now)) }
        ensures accepts { ReadsEachLocated result (HasShapes octets.now)
            (λ all headers. walked_entries headers ≡ entries_of 0 0 all) }
        ensures refuses { RejectsAt result (FirstHeaderFaultAt octets.now) }
    {
        match list_headers(alloc, octets) {
            Ok(entries) => Ok(Headers { octets, entries }),
            Err(located) => Err(located),
        }
    }

    /// The entries, in order.
    pub fn entries(&self) -> &[Entry]
        ensures { result.now ≡ walked_entries self.now }
    {
        self.entries.as_slice()
    }

    /// The octets of the encoding at the index; `None` past the end.
    pub fn encoding(&self, index: usize) -> Option<&'a [u8]>
        ensures found { index < length (walked_entries self.now) → IsSomeAnd result
            (λ found. found.now
            ≡ encoding_octets (walked_octets self.now) (get_or (walked_entries self.now) index no_entry)) }
        ensures none { length (walked_entries self.now) ≤ index → IsNone result }
    {
        let Some(entry) = self.entries.get(index) else {
            return None;
        };
        Some(entry.encoding_in(self.octets))
    }

    /// The contents octets of the encoding at the index; `None` past the end.
    pub fn contents(&self, index: usize) -> Option<&'a [u8]>
        ensures found { index < length (walked_entries self.now) → IsSomeAnd result
            (λ found. found.now
            ≡ contents_octets (walked_octets self.now) (get_or (walked_entries self.now) index no_entry)) }
        ensures none { length (walked_entries self.now) ≤ index → IsNone result }
    {
        let Some(entry) = self.entries.get(index) else {
            return None;
        };
        Some(entry.contents_in(self.octets))
    }

    /// The octets of the document.
    pub fn document(&self) -> &'a [u8]
        ensures { result.now ≡ walked_octets self.now }
    {
        self.octets
    }
}
