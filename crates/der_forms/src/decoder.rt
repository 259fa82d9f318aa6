// Base 64 that is decoded while its lines are read, so that its symbols are not all held.
ghost use Rattle.std.specs.Prelude.{◌≡◌, ◌%◌, length, Err, IfOk, MatchResult, None, Ok, Some};
ghost use Rattle.std.specs.Result.{result_ok};
ghost use Rattle.base64.specs.Engines.{standard};
ghost use Rattle.base64.specs.GeneralPurpose.{IsBytes, IsStrict, decode_of, encode_of};
ghost use Rattle.der_forms.specs.Forms.{without_spaces};

use base64::engine::general_purpose::{GeneralPurpose, STANDARD};
use base64::{DecodeAllocError, DecodeError};
use std::alloc::{AllocError, Global};

// How many symbols are decoded at once, in whole groups of four.
const MOST_SYMBOLS: usize = 4096;

// What the first symbols spell, in whole groups, and the symbols behind them.
#[derive(Drop)]
pub struct Decoder {
    pub octets: Vec<u8>,
    pub symbols: Vec<u8>,
    // no symbols were met that spell nothing, or end with padding
    is_early: bool,
    ghost is_whole: { (length octets.items % 3 ≡ 0) × IsBytes octets.items },
}

impl Decoder {
    ghost use Rattle.std.specs.Prelude.{◌++◌, ◌∷◌, [], OnOk};
    ghost use Rattle.der_forms.specs.Decoded.{symbols_read};

    // A decoder that has read no symbols.
    pub fn new(alloc: Global) -> Decoder
        ensures { symbols_read result ≡ [] }
    {
        Decoder {
            octets: Vec::new(alloc),
            symbols: Vec::new(alloc),
            is_early: true,
        }
    }

    // Reads the symbols of a text.
    pub fn read(&mut self, alloc: Global, text: &[u8]) -> Result<(), AllocError>
        ensures { OnOk result (symbols_read self.new ≡ symbols_read self.old ++ without_spaces text.now) }
    {
        for b in text {
            if !b.is_ascii_whitespace() {
                self.read_symbol(alloc, *b)?;
            }
        }
        Ok(())
    }

    fn read_symbol(&mut self, alloc: Global, symbol: u8) -> Result<(), AllocError>
        ensures { OnOk result (symbols_read self.new ≡ symbols_read self.old ++ symbol ∷ []) }
    {
        self.symbols.push(symbol)?;
        if self.is_early && self.symbols.len() == MOST_SYMBOLS {
            self.decode_front(alloc)?;
        }
        Ok(())
    }

    // Decodes the symbols, unless they have padding or spell nothing, after which none is decoded before all are read.
    fn decode_front(&mut self, alloc: Global) -> Result<(), AllocError>
        ensures { OnOk result (symbols_read self.new ≡ symbols_read self.old) }
    {
        match decode(alloc, &STANDARD, &self.symbols)? {
            Ok(octets) if octets.len() % 3 == 0 => {
                self.octets.extend_from_slice(&octets)?;
                self.symbols.clear();
            }
            _ => self.is_early = false,
        }
        Ok(())
    }

    // What all symbols spell, or all of them, and why they spell nothing.
    pub fn finish(self, alloc: Global) -> Result<Result<Vec<u8>, NoBase64>, AllocError>
        ensures { IfOk result (λ decoded. MatchResult decoded
            (λ octets. decode_of standard (symbols_read self) ≡ Ok octets.items)
            (λ e. (e.symbols.items ≡ symbols_read self)
            × (result_ok (decode_of standard (symbols_read self)) ≡ None))) }
    {
        let mut octets = self.octets;
        if let Ok(last) = decode(alloc, &STANDARD, &self.symbols)? {
            octets.extend_from_slice(&last)?;
            return Ok(Ok(octets));
        }
        let mut symbols = STANDARD.encode(alloc, &octets)?.into_bytes();
        symbols.extend_from_slice(&self.symbols)?;
        match decode(alloc, &STANDARD, &symbols)? {
            Ok(octets) => Ok(Ok(octets)),
            Err(fault) => Ok(Err(NoBase64 { symbols, fault })),
        }
    }
}

// Symbols that spell nothing.
#[derive(Drop)]
pub struct NoBase64 {
    pub symbols: Vec<u8>,
    fault: DecodeError,
}

impl NoBase64 {
    // How many symbols stand before the one at fault, the last one where their number is at fault.
    pub fn place(&self) -> usize {
        match self.fault {
            DecodeError::InvalidByte(offset, _) | DecodeError::InvalidLastSymbol { offset, .. } =>
                offset,
            DecodeError::InvalidLength(_) | DecodeError::InvalidPadding => self
                .symbols
                .len()
                .saturating_sub(1),
        }
    }
}

// What the symbols of a text spell, decoded in parts, or these symbols where they spell nothing.
pub fn octets_in(alloc: Global, text: &[u8]) -> Result<Result<Vec<u8>, Vec<u8>>, AllocError>
    ensures { IfOk result (λ octets. MatchResult octets
        (λ v. result_ok (decode_of standard (without_spaces text.now)) ≡ Some v.items)
        (λ symbols. (symbols.items ≡ without_spaces text.now)
        × (result_ok (decode_of standard (without_spaces text.now)) ≡ None))) }
{
    let mut decoder = Decoder::new(alloc);
    decoder.read(alloc, text)?;
    match decoder.finish(alloc)? {
        Ok(octets) => Ok(Ok(octets)),
        Err(e) => Ok(Err(e.symbols)),
    }
}

// What the symbols spell in a form of base 64, or why they spell nothing.
pub fn decode(
    alloc: Global,
    form: &GeneralPurpose,
    symbols: &[u8],
) -> Result<Result<Vec<u8>, DecodeError>, AllocError>
    ensures decoded { IfOk result (λ decoded. MatchResult decoded
        (λ octets. decode_of form.now symbols.now ≡ Ok octets.items)
        (λ e. decode_of form.now symbols.now ≡ Err e)) }
    ensures exact { IsStrict form.now → IfOk result (λ decoded. IfOk decoded (λ octets.
        symbols.now ≡ encode_of form.now octets.items)) }
    ensures bytes { IfOk result (λ decoded. IfOk decoded (λ octets. IsBytes octets.items)) }
{
    match form.decode(alloc, symbols) {
        Ok(octets) => Ok(Ok(octets)),
        Err(DecodeAllocError::OutOfMemory) => Err(AllocError),
        Err(DecodeAllocError::DecodeError(e)) => Ok(Err(e)),
    }
}
