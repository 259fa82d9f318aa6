// Objects and arrays.
ghost use Rattle.dump_json.specs.Grammar.{IsValue};

use crate::members::{Member, comma, write_members};
use std::alloc::{AllocError, Global};
use std::marker::Model;

// The text of an object or of an array.
#[derive(Drop)]
pub struct Json {
    text: Vec<u8>,
}

impl Model for Json {
    ghost use Rattle.std.specs.Prelude.{List, ℕ};
    ghost use Rattle.dump_json.specs.Grammar.{IsValue};

    ghost Value = { List ℕ };

    ghost view = { λ json. json.text.items };

    ghost invariant = { λ json. IsValue json.text.items };
}

impl Json {
    // The object of the members that have a value.
    pub fn object(alloc: Global, members: &[Member<'_>]) -> Result<Json, AllocError> {
        let mut text = Vec::from_slice(alloc, b"{")?;
        // a vector has no other fault
        let Ok(_) = write_members(members, false, &mut text) else {
            return Err(AllocError);
        };
        text.push(b'}')?;
        Ok(Json { text })
    }

    // The array of the items, if there are some.
    pub fn array(alloc: Global, items: &[Json]) -> Result<Option<Json>, AllocError> {
        if items.is_empty() {
            return Ok(None);
        }
        let mut text = Vec::from_slice(alloc, b"[")?;
        let mut is_later = false;
        for item in items {
            text.extend_from_slice(comma(is_later))?;
            text.extend_from_slice(item.as_bytes())?;
            is_later = true;
        }
        text.push(b']')?;
        Ok(Some(Json { text }))
    }

    pub fn as_bytes(&self) -> &[u8]
        ensures { IsValue result.now }
    {
        &self.text
    }
}
