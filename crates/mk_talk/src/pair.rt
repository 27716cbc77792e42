// An input and an output as one object that tells nothing.
ghost use Rattle.std.specs.Prelude.{None};

use crate::talk::Talk;
use mk_outside::{Failed, PutFail, Sink, Source};

/// An input and an output, of which together nothing is told.
#[derive(Drop)]
pub struct Pair<S: Source, W: Sink> {
    input: S,
    output: W,
}

impl<S: Source, W: Sink> Pair<S, W> {
    pub fn new(input: S, output: W) -> Pair<S, W> {
        Pair { input, output }
    }
}

impl<S: Source, W: Sink> Talk for Pair<S, W> {
    ghost history = { λ _. None };

    fn read(&mut self, buf: &mut [u8]) -> Result<usize, Failed> {
        self.input.read(buf)
    }

    fn put(&mut self, piece: &[u8]) -> Result<(), PutFail> {
        self.output.put(piece)
    }
}
