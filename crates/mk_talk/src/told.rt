// A talk that tells its history.
ghost use Rattle.std.specs.Prelude.{◌≡◌, ◌∷◌, [], Some};
ghost use Rattle.mk_talk.specs.declared.event.Event.{Event};
ghost use Rattle.mk_talk.specs.declared.event.Event.TheVariants.{Got, Put};
ghost use Rattle.mk_talk.specs.Events.{Grew};
ghost use Rattle.mk_talk.specs.Told.{told_history};

use crate::event::Event;
use crate::talk::Talk;
use mk_outside::{Bytes, Failed, Listed, MemSink, PutFail, Sink, Source};
use std::alloc::Global;

/// A source, and a sink in memory, with all that was read and put. Where memory runs out for what
/// it notes, nothing is told.
#[derive(Drop)]
pub struct ToldTalk<S: Source> {
    alloc: Global,
    input: S,
    output: MemSink,
    events: Listed<Event>,
    is_told: bool,
}

impl<S: Source> ToldTalk<S> {
    pub fn new(alloc: Global, input: S, output: MemSink) -> ToldTalk<S>
        ensures { told_history result.is_told result.events ≡ Some [] }
    {
        ToldTalk {
            alloc,
            input,
            output,
            events: Listed::new(alloc),
            is_told: true,
        }
    }

    /// What was read and put.
    pub fn events(&self) -> &[Event]
        ensures { result.now ≡ self.now.events }
    {
        self.events.as_slice()
    }

    /// Whether each of these is noted.
    pub fn is_told(&self) -> bool
        ensures { result ≡ self.now.is_told }
    {
        self.is_told
    }

    // Notes what was read or put.
    fn note(&mut self, event: Event)
        ensures { Grew (told_history self.old.is_told self.old.events) (told_history self.new.is_told self.new.events) (event ∷ []) }
    {
        if self.events.push(event).is_err() {
            self.is_told = false;
        }
    }

    // Notes a piece of bytes that was read.
    fn note_read(&mut self, piece: &[u8])
        ensures { Grew (told_history self.old.is_told self.old.events) (told_history self.new.is_told self.new.events) (Got piece.now ∷ []) }
    {
        match Vec::from_slice(self.alloc, piece) {
            Ok(bytes) => self.note(Event::Got(Bytes::of(bytes))),
            Err(_) => self.is_told = false,
        }
    }

    // Notes a piece that was put.
    fn note_put(&mut self, piece: &[u8])
        ensures { Grew (told_history self.old.is_told self.old.events) (told_history self.new.is_told self.new.events) (Put piece.now ∷ []) }
    {
        match Vec::from_slice(self.alloc, piece) {
            Ok(bytes) => self.note(Event::Put(Bytes::of(bytes))),
            Err(_) => self.is_told = false,
        }
    }
}

impl<S: Source> Talk for ToldTalk<S> {
    ghost history = { λ t. told_history t.is_told t.events };

    fn read(&mut self, buf: &mut [u8]) -> Result<usize, Failed> {
        match self.input.read(buf) {
            Ok(count) => {
                self.note_read(&buf[..count]);
                Ok(count)
            }
            Err(fail) => {
                self.note(Event::NotGot);
                Err(fail)
            }
        }
    }

    fn put(&mut self, piece: &[u8]) -> Result<(), PutFail> {
        match self.output.put(piece) {
            Ok(()) => {
                self.note_put(piece);
                Ok(())
            }
            Err(fail) => {
                self.note(Event::PutPart(Bytes::new(self.alloc)));
                Err(fail)
            }
        }
    }
}
