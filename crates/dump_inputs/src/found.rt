// Documents that stand in a text among other words, in hex digits, in decimal numbers or in base64.
//
// A word is symbols of base64 one behind another. Each is tried by itself, and then those that may spell a document
// together: hex digits or decimal numbers with commas and the like between them, and base64 in lines.

use crate::document::is_document;
use crate::spelled::{
    digits_in, document_in_digits, document_in_symbols, escaped_symbol, is_line_end, is_symbol,
    may_begin, may_spell, octet_in,
};
use der_digits::lines::Lines;
use std::alloc::{AllocError, Global};
use std::mem;

// A document that stands in a text.
#[derive(Drop)]
pub struct Found {
    // the number of the line in which it begins, the first being 1
    pub line: usize,
    // its octets, or a text of PEM
    pub octets: Vec<u8>,
}

// The documents that stand in a text, in their order.
pub fn documents_in(alloc: Global, text: &[u8]) -> Result<Vec<Found>, AllocError> {
    let mut search = Search::new(alloc);
    for line in Lines::of(text) {
        search.begin_line()?;
        for part in line.split_inclusive(|b| !is_symbol(*b)) {
            search.read_part(part)?;
        }
    }
    search.end_numbers()?;
    search.end_symbols()?;
    Ok(search.found)
}

// Words that may spell a document together.
#[derive(Drop)]
struct Run {
    symbols: Vec<u8>,
    // how many words they are
    words: usize,
    // the number of the line in which they begin
    line: usize,
}

impl Run {
    // Of no words.
    fn new(alloc: Global) -> Run {
        Run {
            symbols: Vec::new(alloc),
            words: 0,
            line: 0,
        }
    }

    // Takes in a word of this line.
    fn push(&mut self, word: &[u8], line: usize) -> Result<(), AllocError> {
        if self.words == 0 {
            self.line = line;
        }
        self.words = self.words.saturating_add(1);
        self.symbols.extend_from_slice(word)
    }

    fn clear(&mut self) {
        self.symbols.clear();
        self.words = 0;
    }
}

// How far a text was searched.
#[derive(Drop)]
struct Search {
    alloc: Global,
    found: Vec<Found>,
    // the number of this line
    line: usize,
    // no word of it was read
    is_blank: bool,
    // no word was read behind the last line break, which may be spelled
    is_at_start: bool,
    // what stands directly before the next word; of `&#` the first of both
    mark: u8,
    digits: Run,
    // the octets that they spell as decimal numbers
    octets: Run,
    symbols: Run,
    // how many symbols of base64 have come in this line, and in the one before it
    size: usize,
    size_before: usize,
}

impl Search {
    // Before the first line.
    fn new(alloc: Global) -> Search {
        Search {
            alloc,
            found: Vec::new(alloc),
            line: 0,
            is_blank: false,
            is_at_start: true,
            mark: b'\n',
            digits: Run::new(alloc),
            octets: Run::new(alloc),
            symbols: Run::new(alloc),
            size: 0,
            size_before: 0,
        }
    }

    // Comes to the next line. One without words ends base64.
    fn begin_line(&mut self) -> Result<(), AllocError> {
        if self.is_blank {
            self.end_symbols()?;
        }
        self.line = self.line.saturating_add(1);
        self.is_blank = true;
        self.is_at_start = true;
        self.mark = b'\n';
        Ok(())
    }

    // Reads a word, and the octet behind it, if the line does not end there.
    fn read_part(&mut self, part: &[u8]) -> Result<(), AllocError> {
        match part {
            [word @ .., mark] if !is_symbol(*mark) => {
                self.read_word(word)?;
                self.read_mark(*mark)
            }
            word => self.read_word(word),
        }
    }

    // Reads what stands between words: it may end those that spell a document together.
    fn read_mark(&mut self, mark: u8) -> Result<(), AllocError> {
        let is_reference = self.mark == b'&' && matches!(mark, b'#' | b';');
        let is_between = is_reference
            || mark.is_ascii_whitespace()
            || matches!(mark, b'"' | b'\'' | b'\\' | b'&')
            || (self.is_at_start && matches!(mark, b'>' | b'#' | b'*'));
        if mark != b'#' || !is_reference {
            self.mark = mark;
        }
        if !is_between {
            self.end_symbols()?;
        }
        if !is_between && !matches!(mark, b',' | b':' | b'(' | b')') {
            self.end_numbers()?;
        }
        Ok(())
    }

    // Reads a word, which may begin with what a backslash spells, or be a line end of XML.
    fn read_word(&mut self, word: &[u8]) -> Result<(), AllocError> {
        let word = match (self.mark, word) {
            (b'\\', [b'n' | b'r', rest @ ..]) => {
                self.is_at_start = true;
                rest
            }
            (b'\\', [b'x', rest @ ..]) => rest,
            (b'&', word) if is_line_end(word) => {
                self.is_at_start = true;
                return Ok(());
            }
            _ => word,
        };
        if word.is_empty() {
            return Ok(());
        }
        // no words were read that may spell a document with this one
        let is_idle = [&self.digits, &self.octets, &self.symbols]
            .iter()
            .all(|run| run.words == 0);
        if !is_idle || may_spell(word) {
            self.read_symbols_of(word)?;
        }
        self.is_blank = false;
        self.is_at_start = false;
        Ok(())
    }

    fn read_symbols_of(&mut self, word: &[u8]) -> Result<(), AllocError> {
        let digits = digits_in(word);
        let alone = match digits {
            Some(digits) => document_in_digits(self.alloc, digits)?,
            None => document_in_symbols(self.alloc, word)?,
        };
        if let Some(octets) = alone {
            self.end_numbers()?;
            self.end_symbols()?;
            return self.push_found(octets, self.line);
        }
        // as in `(byte) 0x30`
        if word != b"byte".as_slice() {
            self.read_digits(digits)?;
            self.read_octet(octet_in(word))?;
        }
        self.read_base64(word)
    }

    // Reads a word, as one of those that spell a document in hex digits.
    fn read_digits(&mut self, digits: Option<&[u8]>) -> Result<(), AllocError> {
        match digits {
            Some(digits) => self.digits.push(digits, self.line),
            None => self.end_digits(),
        }
    }

    // Reads a word, as one of those that spell a document in decimal numbers, an octet each.
    fn read_octet(&mut self, octet: Option<u8>) -> Result<(), AllocError> {
        match octet {
            Some(octet) => self.octets.push(&[octet], self.line),
            None => self.end_octets(),
        }
    }

    // Reads a word, as one of those that spell a document in base64.
    fn read_base64(&mut self, word: &[u8]) -> Result<(), AllocError> {
        if !self.goes_on(word) {
            self.end_symbols()?;
            if !may_begin(word) {
                return Ok(());
            }
        }
        if self.is_at_start {
            self.size_before = self.size;
            self.size = 0;
        }
        self.size = self.size.saturating_add(word.len());
        let escaped = escaped_symbol(word).filter(|_| self.mark == b'\\');
        let Some((symbol, rest)) = escaped else {
            return self.symbols.push(word, self.line);
        };
        self.symbols.push(&[symbol], self.line)?;
        self.symbols.push(rest, self.line)
    }

    // Whether the word goes on with base64: in the next line, if the line before it is no shorter than the one before
    // that; or with a symbol as strings of JSON spell it.
    fn goes_on(&self, word: &[u8]) -> bool {
        self.symbols.words > 0
            && if self.is_at_start {
                self.size >= self.size_before
            } else {
                self.mark == b'\\' && escaped_symbol(word).is_some()
            }
    }

    // Takes what hex digits spell together, behind which something else stands.
    fn end_digits(&mut self) -> Result<(), AllocError> {
        if self.digits.words > 1
            && let Some(octets) = document_in_digits(self.alloc, &self.digits.symbols)?
        {
            self.push_found(octets, self.digits.line)?;
        }
        self.digits.clear();
        Ok(())
    }

    // The same of decimal numbers.
    fn end_octets(&mut self) -> Result<(), AllocError> {
        if is_document(self.alloc, &self.octets.symbols)? {
            let octets = mem::replace(&mut self.octets.symbols, Vec::new(self.alloc));
            self.push_found(octets, self.octets.line)?;
        }
        self.octets.clear();
        Ok(())
    }

    // The same of both.
    fn end_numbers(&mut self) -> Result<(), AllocError> {
        self.end_digits()?;
        self.end_octets()
    }

    // The same of base64.
    fn end_symbols(&mut self) -> Result<(), AllocError> {
        if self.symbols.words > 1
            && let Some(octets) = document_in_symbols(self.alloc, &self.symbols.symbols)?
        {
            self.push_found(octets, self.symbols.line)?;
        }
        self.symbols.clear();
        self.size = 0;
        self.size_before = 0;
        Ok(())
    }

    fn push_found(&mut self, octets: Vec<u8>, line: usize) -> Result<(), AllocError> {
        self.found.push(Found { line, octets })?;
        Ok(())
    }
}
