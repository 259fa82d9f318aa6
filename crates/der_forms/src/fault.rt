// Why an input has no document to be read, and why no PEM is written.
ghost use Rattle.std.specs.Prelude.{◌≡◌};
ghost use Rattle.der_forms.specs.declared.fault.FormFault.TheVariants.{OutOfMemory};
ghost use Rattle.der_forms.specs.declared.fault.LabelFault.TheVariants.{OutOfMemory as no_memory};

use std::alloc::AllocError;
use thiserror::Error;

/// Why an input, or an object of PEM, has no document to be read. Lines are counted from 1.
#[derive(Debug, Drop, Error, PartialEq)]
pub enum FormFault {
    /// Memory ran out.
    #[error("out of memory")]
    OutOfMemory,
    /// An odd number of hex digits.
    #[error("odd number of hex digits")]
    OddDigits,
    /// Columns of words, of octal digits or of bits, as `hexdump`, `od` and `xxd -b` print them.
    #[error("columns of words, octal digits or bits are not read: print them by xxd, hexdump -C or od -t x1")]
    OtherColumns,
    /// Hex digits with a line `*` for others, in this line. No offset says how many, or the offsets are wrong.
    #[error("line {0}: the offsets do not tell how many lines `*` stands for")]
    LeftOut(usize),
    /// A source of C, or columns with lines left out.
    #[error("a source of C, or columns with lines left out: der_dump --extract 0 writes what it has")]
    LaidOut,
    /// Any other text. This line of it is the first in no form that is read.
    #[error("line {0}: unknown text: DER, PEM, base64, hex digits (plain, in C, xxd, hexdump -C, od -t x1) are read")]
    Text(usize),
    /// The object is encrypted.
    #[error("encrypted, not read")]
    Encrypted,
    /// The object is a private key in the form of OpenSSH.
    #[error("OpenSSH private key, not DER: ssh-keygen -p -m PEM -f FILE converts it")]
    OpenSsh,
    /// This line of the object is not base64.
    #[error("line {0}: invalid base64")]
    NoBase64(usize),
    /// The object does not end as it should, in this line.
    #[error("line {0}: {1}")]
    BadEnd(usize, BadEnd),
}

/// How an object ends that no line with its own label ends.
#[derive(Clone, Copy, Debug, Drop, Error, PartialEq)]
pub enum BadEnd {
    /// No line ends it.
    #[error("this object has no END line")]
    Missing,
    /// The line that ends it has another label.
    #[error("END has another label than BEGIN")]
    OtherLabel,
    /// Another object begins in the line that ends it.
    #[error("the next object begins on the END line")]
    Joined,
}

impl From<AllocError> for FormFault {
    ghost from_gives = { λ _ e. e ≡ OutOfMemory };

    fn from(_e: AllocError) -> FormFault {
        FormFault::OutOfMemory
    }
}

/// Why no PEM is written.
#[derive(Debug, Drop, Error, PartialEq)]
pub enum LabelFault {
    /// Memory ran out.
    #[error("out of memory")]
    OutOfMemory,
    /// A label has printed characters of ASCII, between which single spaces and single hyphens may stand (RFC 7468,
    /// section 3).
    #[error("not a label of PEM")]
    BadLabel,
}

impl From<AllocError> for LabelFault {
    ghost from_gives = { λ _ e. e ≡ no_memory };

    fn from(_e: AllocError) -> LabelFault {
        LabelFault::OutOfMemory
    }
}
