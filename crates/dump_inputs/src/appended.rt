// A writer that bytes are only appended to.
ghost use Rattle.std.specs.Prelude.{ℕ, List, None, Option};
ghost use Rattle.dump_inputs.specs.Growing.{Grows};

use std::io::{self, Write};
use std::marker::{Brand, PhantomData};

// What a writer holds at some time, for proofs.
pub trait Before {
    // its bytes at that time, where they are known; the proof of a call picks them
    ghost before: { Option (List ℕ) };
}

impl Before for Brand {
    ghost before = { None };
}

// Its writer still has at the front what it held before.
pub struct Appended<W: Write, B: Before> {
    pub writer: W,
    pub since: PhantomData<B>,
    pub ghost grows: { ∥ Grows B.before (W.contents writer) ∥₁ },
}

impl<W: Write, B: Before> Write for Appended<W, B> {
    ghost contents = { λ appended. W.contents appended.writer };

    fn write(&mut self, buf: &[u8]) -> io::Result<usize> {
        self.writer.write(buf)
    }

    fn flush(&mut self) -> io::Result<()> {
        self.writer.flush()
    }
}
