// The text of a report.

#![tactic(auto)]

ghost use Rattle.std.specs.Prelude.{◌≡◌};
ghost use Rattle.scenario.specs.Models.{call_model};
ghost use Rattle.show.specs.Names.{name_of};

use bench::step::Outcome;
use board::pump::Board;
use config::clocking::Clocking;
use lines::any::AnyLine;
use scenario::statement::Call;
use std::fmt;
use wire::event::Event;

// Two digits a byte, or `-` for none.
#[derive(Drop)]
pub struct Hex<'a>(pub &'a [u8]);

impl<'a> fmt::Display for Hex<'a> {
    fn fmt<W: fmt::Write>(&self, f: &mut fmt::Formatter<W>) -> fmt::Result {
        if self.0.is_empty() {
            return write!(f, "-");
        }
        for b in self.0 {
            write!(f, "{b:02x}")?;
        }
        Ok(())
    }
}

// The text of a report and not of every event, and `Event` belongs to another crate: so a type of its own.
#[derive(Drop)]
pub struct EventText(pub Event);

impl fmt::Display for EventText {
    fn fmt<W: fmt::Write>(&self, f: &mut fmt::Formatter<W>) -> fmt::Result {
        match self.0 {
            Event::Both(b) => write!(f, "both:{b:02x}"),
            Event::Out(b) => write!(f, "out:{b:02x}"),
            Event::In => write!(f, "in"),
            Event::Head(h) => write!(
                f,
                "head:{}:{}:{}:{}:{}",
                h.command_width, h.command_value, h.address_width, h.address_value, h.dummy_cycles
            ),
        }
    }
}

// The events of a call, a blank before each.
#[derive(Drop)]
pub struct EventsText<'a>(pub &'a [Event]);

impl<'a> fmt::Display for EventsText<'a> {
    fn fmt<W: fmt::Write>(&self, f: &mut fmt::Formatter<W>) -> fmt::Result {
        write!(f, "  events")?;
        for event in self.0 {
            let text = EventText(*event);
            write!(f, " {text}")?;
        }
        Ok(())
    }
}

// The name of a call, as a scenario writes it.
pub fn call_name(call: &Call) -> &'static str
    ensures value { result.now ≡ name_of (call_model call.now) }
{
    match call {
        Call::BusWrite(_) => "bus_write",
        Call::BusRead(_) => "bus_read",
        Call::BusTransfer(_, _) => "bus_transfer",
        Call::TransferInPlace(_) => "transfer_in_place",
        Call::Flush => "flush",
        Call::Clock(_) => "clock",
    }
}

// The text of a report and not of every answer, and `Clocking` belongs to another crate: so a type of its own.
#[derive(Drop)]
pub struct ClockText(pub Clocking);

impl fmt::Display for ClockText {
    fn fmt<W: fmt::Write>(&self, f: &mut fmt::Formatter<W>) -> fmt::Result {
        let word = self.0.word;
        match self.0.dividers {
            Some((n, pre)) => write!(f, "  clock n {n} pre {pre} word 0x{word:08x}"),
            None => write!(f, "  clock direct word 0x{word:08x}"),
        }
    }
}

// The line of a call: its number, its name, its result and its places.
#[derive(Drop)]
pub struct CallText<'a> {
    pub number: u64,
    pub name: &'a str,
    pub outcome: &'a Outcome,
}

impl<'a> fmt::Display for CallText<'a> {
    fn fmt<W: fmt::Write>(&self, f: &mut fmt::Formatter<W>) -> fmt::Result {
        let places = Hex(self.outcome.buffer.as_slice());
        write!(f, "call {} {} -> ", self.number, self.name)?;
        match &self.outcome.clock {
            Some(Err(e)) => write!(f, "refused {} {places}", e.number()),
            Some(Ok(clocking)) => {
                let clock = ClockText(*clocking);
                write!(f, "ok {places}\n{clock}")
            }
            None => write!(f, "ok {places}"),
        }
    }
}

// The state of a line, each row after `indent`.
#[derive(Drop)]
pub struct LineText<'a> {
    pub line: &'a AnyLine,
    pub indent: &'a str,
}

impl<'a> fmt::Display for LineText<'a> {
    fn fmt<W: fmt::Write>(&self, f: &mut fmt::Formatter<W>) -> fmt::Result {
        let indent = self.indent;
        match self.line {
            AnyLine::Relay(chain) => {
                let held = Hex(chain.held());
                write!(f, "{indent}line relay {held}")
            }
            AnyLine::Script(script) => {
                let rest = Hex(script.rest());
                write!(f, "{indent}line script {rest}")
            }
            AnyLine::Board(pumps) => {
                let board = BoardText {
                    board: pumps.board(),
                    indent,
                };
                write!(f, "{board}")
            }
        }
    }
}

#[derive(Drop)]
struct BoardText<'a> {
    board: &'a Board,
    indent: &'a str,
}

impl<'a> fmt::Display for BoardText<'a> {
    fn fmt<W: fmt::Write>(&self, f: &mut fmt::Formatter<W>) -> fmt::Result {
        let indent = self.indent;
        write!(f, "{indent}line board")?;
        for (k, slot) in self.board.slots.iter().enumerate() {
            write!(
                f,
                "\n{indent}  slot {k} holder {:02x} previous {:02x}",
                slot.holder, slot.previous
            )?;
        }
        let reply = self.board.reply;
        match self.board.awaited {
            Some(k) => write!(f, "\n{indent}  reply {reply:02x} awaited {k}"),
            None => write!(f, "\n{indent}  reply {reply:02x} awaited none"),
        }
    }
}
