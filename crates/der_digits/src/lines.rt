// Lines of a text, one after another.
ghost use Rattle.std.specs.Prelude.{◌≡◌};
ghost use Rattle.std.specs.Iterator.{YieldsFirstRef, item_count};
ghost use Rattle.der_digits.specs.Lines.{lines_left};

use der_io::split_line;

/// The lines of a text.
#[derive(Clone, Copy, Drop)]
pub struct Lines<'a> {
    /// What is still to be read.
    pub rest: &'a [u8],
    /// How many lines were read: the number of the last one, the first being 1.
    pub count: usize,
}

impl<'a> Lines<'a> {
    /// All lines of a text.
    pub fn of(text: &'a [u8]) -> Lines<'a>
        ensures { result.rest.now ≡ text.now }
    {
        Lines {
            rest: text,
            count: 0,
        }
    }
}

impl<'a> Iterator for Lines<'a> {
    type Item = &'a [u8];

    ghost next_gives = { YieldsFirstRef lines_left };

    ghost remaining = { item_count lines_left };

    fn next(&mut self) -> Option<&'a [u8]> {
        if self.rest.is_empty() {
            return None;
        }
        let (line, rest) = split_line(self.rest);
        self.rest = rest;
        self.count = self.count.saturating_add(1);
        Some(line)
    }
}
