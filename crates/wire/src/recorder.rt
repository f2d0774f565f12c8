// A line that wraps a line: it answers as that one does, and keeps a list of the events that passed.
ghost use Rattle.std.specs.Prelude.{◌≡◌, true, false, not, [], ◌∷◌, ◌++◌};
ghost use Rattle.wire.specs.declared.event.Event.TheVariants.{Both, Out, In};
ghost use Rattle.wire.specs.Answers.{Causal, Ran};
ghost use Rattle.wire.specs.Noted.{Noted};

use crate::event::{Event, Head};
use crate::line::Line;
use std::alloc::Global;

// `missed` is set once an event found no memory; until then `events` has all of them.
// A flag beside the list, and no `Result`: a line's calls return no error, and the events before the loss stay readable.
#[derive(Drop)]
struct Log {
    events: Vec<Event>,
    missed: bool,
}

impl Log {
    fn note(&mut self, event: Event)
        ensures { Noted event self.old self.new }
    {
        if self.events.push(event).is_err() {
            self.missed = true;
        }
    }

    fn clear(&mut self)
        ensures events { self.new.events.items ≡ [] }
        ensures missed { self.new.missed ≡ self.old.missed }
    {
        self.events.clear();
    }
}

#[derive(Drop)]
pub struct Recorder<L> {
    line: L,
    log: Log,
}

impl<L> Recorder<L> {
    pub fn new(heap: Global, line: L) -> Recorder<L>
        ensures line { result.line ≡ line }
        ensures events { result.log.events.items ≡ [] }
        ensures missed { result.log.missed ≡ false }
    {
        Recorder {
            line,
            log: Log {
                events: Vec::new(heap),
                missed: false,
            },
        }
    }

    // What passed since the making or the last `clear`.
    pub fn events(&self) -> &[Event]
        ensures value { result.now ≡ self.now.log.events.items }
    {
        self.log.events.as_slice()
    }

    // Whether no event has found the memory full.
    pub fn complete(&self) -> bool
        ensures value { result ≡ not self.now.log.missed }
    {
        !self.log.missed
    }

    pub fn line(&self) -> &L
        ensures value { result.now ≡ self.now.line }
    {
        &self.line
    }

    // Forgets the events, and nothing else.
    pub fn clear(&mut self)
        ensures line { self.new.line ≡ self.old.line }
        ensures events { self.new.log.events.items ≡ [] }
        ensures missed { self.new.log.missed ≡ self.old.log.missed }
    {
        self.log.clear();
    }
}

impl<L: Line> Line for Recorder<L> {
    ghost answers = { λ s. L.Line.answers s.line };

    ghost causal = { λ s. L.Line.causal s.line };

    fn both(&mut self, b: u8) -> u8
        ensures ran { Ran (L.Line.answers self.old.line) (Both b ∷ []) (result ∷ []) (L.Line.answers self.new.line) }
        ensures noted { Noted (Both b) self.old.log self.new.log }
    {
        self.log.note(Event::Both(b));
        self.line.both(b)
    }

    fn out(&mut self, b: u8)
        ensures ran { Ran (L.Line.answers self.old.line) (Out b ∷ []) [] (L.Line.answers self.new.line) }
        ensures noted { Noted (Out b) self.old.log self.new.log }
    {
        self.log.note(Event::Out(b));
        self.line.out(b);
    }

    fn receive(&mut self) -> u8
        ensures ran { Ran (L.Line.answers self.old.line) (In ∷ []) (result ∷ []) (L.Line.answers self.new.line) }
        ensures noted { Noted In self.old.log self.new.log }
    {
        self.log.note(Event::In);
        self.line.receive()
    }

    fn head(&mut self, h: Head)
        ensures ran { Ran (L.Line.answers self.old.line) (Event.Head h ∷ []) [] (L.Line.answers self.new.line) }
        ensures noted { Noted (Event.Head h) self.old.log self.new.log }
    {
        self.log.note(Event::Head(h));
        self.line.head(h);
    }
}
