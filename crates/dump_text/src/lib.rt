//! Short accounts of certificates, lists, keys, messages and the like, for people.
//!
//! An account has a title, and a line for each thing that it shows, a label and a value:
//!
//! ```text
//! certificate
//!   subject             CN=example.org,O=Example Ltd,C=GB
//!   issuer              CN=Example Root,O=Example Ltd,C=GB
//!   serial number       0A1B2C
//!   not before          2026-01-01T00:00:00Z
//!   not after           2027-01-01T00:00:00Z (35 days left)
//!   public key          EC, secp256r1
//!   alternative names   DNS:example.org, IP Address:192.0.2.1
//!   signature           ecdsa-with-SHA256
//!   SHA-256             5A6B..
//! ```
//!
//! It is a view of the pieces that lines and JSON show, too, with the same names of fields and the same values. The
//! tables in `forms` say of which types there are accounts, and by the path of its fields what each line shows:
//! `tbsCertificate.validity.notAfter` a time, with the label `not after`. Names are written as RFC 4514 writes them.
#![tactic(auto)]

ghost use Rattle.std.specs.Prelude.{IfOk, IfSome, OnOk, string_bytes};
ghost use Rattle.dump_text.specs.Shown.{AreLines};

mod forms;
mod leaf;
mod lines;
mod messages;
mod name;
mod open_line;
mod reader;
mod timestamps;

use crate::forms::form_of;
use crate::reader::{Inside, Reader, Seen, read_pieces};
use dump_names::Names;
use dump_shapes::Around;
use dump_values::faults::Fault;
use dump_walk::fitting;
use dump_walk::place::outermost;
use dump_walk::style::Style;
use jiff::civil::DateTime;
use std::alloc::{AllocError, Global};

/// The account of a document.
#[derive(Drop)]
pub struct Account {
    /// The lines, of which the first is the title: text that is shown, with a line feed behind each.
    pub text: String,
    /// Why the octets are no whole encodings, if they are none.
    pub fault: Option<Fault>,
}

/// The account of a document, of a type that has one, such as a certificate, a list, a key or a message. Its shape is
/// `known`, or else the one that fits ([`fitting`]). Those of the certificates and of the lists of revoked ones inside
/// it follow. `None` of other types, and where a field is missing that an account shows of each. Of a document that is
/// cut short the account has what is whole. If the time `now` is given, in UTC, it says how many days are left.
///
/// It takes memory for what the account shows, and for one piece of the document at a time.
///
/// # Errors
/// Memory ran out.
pub fn account_of(
    alloc: Global,
    names: &Names,
    known: Option<usize>,
    octets: &[u8],
    now: Option<DateTime>,
) -> Result<Option<Account>, AllocError>
    ensures { IfOk result (λ found. IfSome found (λ account. AreLines (string_bytes account.text))) }
{
    let shape = match known {
        Some(shape) => Some(shape),
        None => fitting(alloc, &names.shapes, octets)?,
    };
    let Some(shape) = shape else {
        return Ok(None);
    };
    let accounts = Accounts { alloc, names, now };
    let mut text = String::new(alloc);
    let Some(seen) = accounts.push(shape, octets, &mut text)? else {
        return Ok(None);
    };
    accounts.push_inside(&seen.inside, octets, &mut text)?;
    Ok(Some(Account {
        text,
        fault: seen.fault,
    }))
}

// What all accounts are made with.
#[derive(Clone, Copy)]
struct Accounts<'a> {
    alloc: Global,
    names: &'a Names,
    now: Option<DateTime>,
}

impl Accounts<'_> {
    // Pushes the lines of a document of the shape, and returns what else was seen of it. `None` where it has none.
    fn push(
        &self,
        shape: usize,
        octets: &[u8],
        text: &mut String,
    ) -> Result<Option<Seen>, AllocError>
        ensures { OnOk result (AreLines (string_bytes text.old) → AreLines (string_bytes text.new)) }
    {
        let name = self.names.shapes.name_of(shape);
        let Some(form) = name.and_then(|name| form_of(name)) else {
            return Ok(None);
        };
        let place = outermost(Style::default(), Around::Shape(shape));
        let mut reader = Reader::new(self.alloc, self.names, form, self.now);
        read_pieces(&mut reader, octets, place)?;
        reader.finish(octets, text)
    }

    // Pushes the lines of each document that stands inside these octets.
    fn push_inside(
        &self,
        inside: &[Inside],
        octets: &[u8],
        text: &mut String,
    ) -> Result<(), AllocError>
        ensures { OnOk result (AreLines (string_bytes text.old) → AreLines (string_bytes text.new)) }
    {
        for document in inside {
            let octets = octets.get(document.start..document.end).unwrap_or(&[]);
            self.push(document.shape, octets, text)?;
        }
        Ok(())
    }
}
