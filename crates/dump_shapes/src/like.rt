// Types whose names are like a name.
use crate::shapes::Shapes;
use std::alloc::{AllocError, Global};
use strsim::levenshtein;

// A name may be from that of a type by one letter for so many that it has, and by no more than these.
const LETTERS_FOR_ONE: usize = 3;

const MOST_LETTERS: usize = 2;

// From how many letters on it may stand in one.
const LEAST_LENGTH: usize = 3;

impl Shapes {
    /// The names of types that are like this one, in any case of letters: that have it in them, or that are from it by
    /// one letter, or by two where it has six and more. The one that is the fewest letters away comes first.
    pub fn like(&self, alloc: Global, name: &str) -> Result<Vec<&'static str>, AllocError> {
        let name = name.to_ascii_lowercase(alloc)?;
        let most = (name.len() / LETTERS_FOR_ONE).min(MOST_LETTERS);
        let mut found = Vec::new(alloc);
        for shape in &self.shapes {
            let known = shape.full_name.to_ascii_lowercase(alloc)?;
            let letters = levenshtein(alloc, &name, &known)?;
            if letters <= most || name.len() >= LEAST_LENGTH && known.contains(name.as_str()) {
                found.push((letters, shape.full_name))?;
            }
        }
        found.sort()?;
        let mut names = Vec::with_capacity(alloc, found.len())?;
        for (_, name) in found {
            names.push(name)?;
        }
        Ok(names)
    }
}
