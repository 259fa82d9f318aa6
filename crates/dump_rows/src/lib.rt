//! The rows of a dump, and what is printed of them.
//!
//! A [`Row`] is what is shown of one piece of a document: where it stands, its type, its value, and what is wrong with
//! it. A [`Printer`] writes rows one behind another in a [`Look`]: as lines, as lines with colors, or as elements of a
//! page. No look takes a line apart: each shows the parts of a row as they are. A printer keeps no row: each is written
//! before the next is made.
//!
//! ```text
//!       0  2       6  SEQUENCE
//!       2  2       4    OCTET STRING, containing
//! >     4  2       2      SEQUENCE
//! >     6  2       0        NULL
//! ```
//!
//! The line of a row has its offset, the sizes of its header and of its contents octets, its field, its type, its
//! value, what is wrong with it, and what of DER it breaks. Other lines are about documents: `=` and a title, or `!`
//! and what is wrong. No line has a control character or one that is invisible: `\u{..}` stands in its place.
//!
//! A page begins with [`head`] and ends with [`foot`]. Nothing of a document stands on it but escaped, or in
//! digits.
//!
//! The errors are that memory ran out, and that a write failed. What was written before stays.
#![tactic(auto)]

mod page;
mod part;
mod printer;
mod row;
mod texts;
mod width;

pub use page::{foot, head};
pub use part::Look;
pub use printer::Printer;
pub use row::{Inside, Row, RowFault, RowValue};
