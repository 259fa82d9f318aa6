//! The forms in which documents come: as they are, in PEM, in hex digits or in base64.
//!
//! [`text_of`] makes UTF-16 text in UTF-8, and gives PEM its lines. [`form_of`] tells what an input is, by its octets
//! alone. Of PEM, [`Objects`] are one object after another; [`document_of`] is for programs that want one document.
//! [`to_pem`] writes an object.
#![tactic(auto)]

mod breaks;
mod decoder;
mod fault;
mod input;
mod lines;
mod objects;
mod text;
mod unknown;
mod written;

pub use fault::{BadEnd, FormFault, LabelFault};
pub use input::{InputForm, LabelledDocument, document_of, form_of, labelled_document_of};
pub use objects::{Objects, PemObject};
pub use text::text_of;
pub use written::to_pem;
