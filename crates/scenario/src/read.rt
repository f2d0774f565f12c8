// What the words of a line say.
ghost use Rattle.std.specs.Prelude.{◌≡◌, vec_items};
ghost use Rattle.std.specs.Option.{option_map};
ghost use Rattle.scenario.specs.Models.{call_model, line_model, statement_model};
ghost use Rattle.faults.specs.Readings.{Reads, read_then};
ghost use Rattle.scenario.specs.Statements.{board_from, board_given, call_of, held, line_of, line_statement, relay_line, said_by, statement};
ghost use Rattle.scenario.specs.declared.statement.CallName.TheVariants.{BusTransfer};
ghost use Rattle.words.specs.Arities.{none_or_four, one};
ghost use Rattle.values.specs.Values.{bytes_of};

use crate::statement::{Call, CallName, Keyword, LineKind, LineSetup, Statement};
use board::pump::{Board, slot_table};
use faults::fault::{Expected, Refusal};
use std::alloc::Global;
use std::marker::Model;
use values::{byte_array, bytes, count, exact_bytes, number, slot};
use words::words::{Four, Words};

const SHORTEST: u32 = 1;

const LONGEST: u32 = 16;

// Reads one line: the words that are left of it, and the heap for what they say.
#[derive(Drop)]
struct LineReader<'w, 'a> {
    heap: Global,
    words: &'w mut Words<'a>,
}

impl<'w, 'a> Model for LineReader<'w, 'a> {
    ghost use Rattle.std.specs.Prelude.{List, ℕ};

    ghost Value = { List (List ℕ) };

    ghost view = { λ r. r.words.now };
}

impl LineReader<'_, '_> {
    fn one_bytes(&mut self) -> Result<Vec<u8>, Refusal>
        ensures { Reads vec_items result (read_then (one self.old) bytes_of) }
    {
        bytes(self.heap, self.words.one()?)
    }

    // The bytes that a relay of `len` holds: those given, or 0x00 each.
    fn held(&self, len: usize, given: Option<&[u8]>) -> Result<Vec<u8>, Refusal>
        ensures { Reads vec_items result (held len (option_map (λ x. x.now) given.entry)) }
    {
        match given {
            Some(word) => exact_bytes(self.heap, word, len),
            None => Ok(vec![in self.heap; 0; len]?),
        }
    }

    fn relay(&mut self) -> Result<Vec<u8>, Refusal>
        ensures { Reads vec_items result (relay_line self.old) }
    {
        let (len, given) = self.words.one_or_two()?;
        let len = number(len)?.clamp(SHORTEST, LONGEST);
        self.held(len as usize, given)
    }

    fn board_given(&self, given: Four) -> Result<Board, Refusal>
        ensures { Reads (λ b. b) result (board_given (given.entry.0.now, given.entry.1.now, given.entry.2.now, given.entry.3.now)) }
    {
        let holders = byte_array(self.heap, given.0)?;
        let previous = byte_array(self.heap, given.1)?;
        let [reply] = byte_array::<1>(self.heap, given.2)?;
        let awaited = slot(given.3)?;
        Ok(Board {
            slots: slot_table(holders, previous),
            reply,
            awaited,
        })
    }

    fn board(&mut self) -> Result<Board, Refusal>
        ensures { Reads (λ b. b) result (read_then (none_or_four self.old) board_from) }
    {
        match self.words.none_or_four()? {
            Some(given) => self.board_given(given),
            None => Ok(Board::default()),
        }
    }

    fn line_of(&mut self, kind: LineKind) -> Result<LineSetup, Refusal>
        ensures { Reads line_model result (line_of kind self.old) }
    {
        match kind {
            LineKind::Relay => Ok(LineSetup::Relay(self.relay()?)),
            LineKind::Script => Ok(LineSetup::Script(self.one_bytes()?)),
            LineKind::Board => Ok(LineSetup::Board(self.board()?)),
        }
    }

    fn line_setup(&mut self) -> Result<LineSetup, Refusal>
        ensures { Reads line_model result (line_statement self.old) }
    {
        let word = self.words.next_word().ok_or(Expected::LineKind)?;
        self.line_of(LineKind::try_from(word)?)
    }

    fn transfer(&mut self) -> Result<Call, Refusal>
        ensures { Reads call_model result (call_of BusTransfer self.old) }
    {
        let (places, sent) = self.words.two()?;
        let places = count(places)?;
        Ok(Call::BusTransfer(places, bytes(self.heap, sent)?))
    }

    fn call(&mut self, name: CallName) -> Result<Call, Refusal>
        ensures { Reads call_model result (call_of name self.old) }
    {
        match name {
            CallName::BusWrite => Ok(Call::BusWrite(self.one_bytes()?)),
            CallName::BusRead => Ok(Call::BusRead(count(self.words.one()?)?)),
            CallName::BusTransfer => self.transfer(),
            CallName::TransferInPlace => Ok(Call::TransferInPlace(self.one_bytes()?)),
            CallName::Flush => {
                self.words.end()?;
                Ok(Call::Flush)
            }
            CallName::Clock => Ok(Call::Clock(number(self.words.one()?)?)),
        }
    }

    fn said_by(&mut self, name: Keyword) -> Result<Statement, Refusal>
        ensures { Reads statement_model result (said_by name self.old) }
    {
        match name {
            Keyword::Line => Ok(Statement::Line(self.line_setup()?)),
            Keyword::Source => Ok(Statement::Source(number(self.words.one()?)?)),
            Keyword::Call(name) => Ok(Statement::Call(self.call(name)?)),
        }
    }

    fn statement(&mut self) -> Result<Option<Statement>, Refusal>
        ensures { Reads (option_map statement_model) result (statement self.old) }
    {
        let Some(word) = self.words.next_word() else {
            return Ok(None);
        };
        let name = Keyword::try_from(word)?;
        Ok(Some(self.said_by(name)?))
    }
}

// `None` where there is no word.
pub fn read_statement(heap: Global, words: &mut Words) -> Result<Option<Statement>, Refusal>
    ensures { Reads (option_map statement_model) result (statement words.old) }
{
    LineReader { heap, words }.statement()
}
