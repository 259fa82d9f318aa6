//! Names of object identifiers, with the standard that each comes from.
//!
//! [`Names`] is a table of 1,400 names, made once; [`OwnNames`] are those of a user, which come before it.
//!
//! ```rust
//! use dump_names::Names;
//! use std::alloc::{AllocError, Global};
//!
//! // Whether the table has the name of a number: of `2.5.4.3`, commonName of X.520, it has.
//! fn has_name(alloc: Global, number: &str) -> Result<bool, AllocError> {
//!     Ok(Names::new(alloc)?.of(number).is_some())
//! }
//! ```
//!
//! The texts of the table have a row a name: the number, the name and the standard, with a space between two, in the
//! order of the numbers' texts. Numbers and names are those of the standards named; many of algorithms, of S/MIME and
//! of WAP are as `openssl list -objects` of OpenSSL 3.0 has them. Where no standard has a number, its maker stands in
//! the place of one, such as Apple or Microsoft.
#![tactic(auto)]

mod itu_t;
mod joint;
mod member_bodies;
mod organizations;
mod own;

use dump_shapes::Shapes;
use itu_t::ITU_T;
use joint::JOINT;
use member_bodies::MEMBER_BODIES;
use organizations::ORGANIZATIONS;
pub use own::{NamesFault, OwnNames};
use std::alloc::{AllocError, Global};

/// The names of object identifiers, by their numbers, and of fields, by their shapes: tables, which are made once.
#[derive(Drop)]
pub struct Names {
    // the numbers of the table, in its order, with the name and the standard of each
    rows: Vec<(&'static str, &'static str)>,
    // names of a file, which are taken before those of the table
    own: Option<OwnNames>,
    /// The names of fields: at first none.
    pub shapes: Shapes,
}

impl Names {
    /// The table of object identifiers of the crate, a row a name; it takes 32 octets of memory a row.
    ///
    /// # Errors
    /// Memory ran out.
    pub fn new(alloc: Global) -> Result<Names, AllocError> {
        let mut rows = Vec::new(alloc);
        for text in [ITU_T, MEMBER_BODIES, ORGANIZATIONS, JOINT] {
            for row in text.lines() {
                if let Some(row) = row.split_once(' ') {
                    rows.push(row)?;
                }
            }
        }
        Ok(Names {
            rows,
            own: None,
            shapes: Shapes::none(alloc),
        })
    }

    /// The names that are built in, behind those of a user.
    ///
    /// # Errors
    /// Memory ran out.
    pub fn with(alloc: Global, own: OwnNames) -> Result<Names, AllocError> {
        let mut names = Names::new(alloc)?;
        names.own = Some(own);
        Ok(names)
    }

    /// The name of an object identifier and the standard, or another comment on it, by its components in decimal with
    /// points between them.
    pub fn of(&self, number: &str) -> Option<(&str, &str)> {
        if let Some(own) = &self.own
            && let Some(found) = own.of(number)
        {
            return Some(found);
        }
        let place = self.rows.binary_search_by(|row| row.0.cmp(number));
        self.rows[place.ok()?].1.split_once(' ')
    }
}
