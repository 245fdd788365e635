// A window over a stream of any length.
ghost use Rattle.std.specs.Prelude.{◌≤◌};

use program_io::reading::read_full;
use std::io;
use std::io::Read;
use stream::offer::OFFER_BYTES;

// The bytes of the buffer: more than an offer has.
const BUFFER: usize = 65536;

// The bytes that are read and not yet used stand in the buffer from `from` up to `upto`.
#[derive(Debug, Drop)]
pub struct Window<I> {
    input: I,
    buffer: [u8; BUFFER],
    from: usize,
    upto: usize,
    ghost inside: { (from ≤ upto) × (upto ≤ 65536) },
}

impl<I: Read> Window<I> {
    // Nothing is read yet.
    pub fn new(input: I) -> Window<I> {
        Window {
            input,
            buffer: [0; BUFFER],
            from: 0,
            upto: 0,
        }
    }

    pub fn bytes(&self) -> &[u8] {
        &self.buffer[self.from..self.upto]
    }

    // The next n bytes are used, or all where there are less.
    pub fn skip(&mut self, n: usize) {
        self.from += n.min(self.upto - self.from);
    }

    // Moves what is left to the start of the buffer, and reads until it is full or the input ends.
    pub fn refill(&mut self) -> io::Result<()> {
        let left = self.upto - self.from;
        self.buffer.copy_within(self.from..self.upto, 0);
        self.from = 0;
        self.upto = left;
        let more = read_full(&mut self.input, &mut self.buffer[left..])?;
        self.upto = left + more;
        Ok(())
    }

    // Sees to it that there are enough bytes for a whole offer, or all that are left.
    pub fn ready(&mut self) -> io::Result<()> {
        if self.upto - self.from < OFFER_BYTES {
            self.refill()?;
        }
        Ok(())
    }
}
