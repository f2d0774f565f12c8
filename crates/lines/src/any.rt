// A line of any of the three kinds.
ghost use Rattle.lines.specs.AnyLine.{any_answers, any_causal};

use crate::script::Script;
use board::pump::PumpBoard;
use relay::RelayChain;
use wire::event::Head;
use wire::line::Line;

// An enum, and no box of any line: what shows a line's state asks its kind. So each call has a match of its own.
#[derive(Drop)]
pub enum AnyLine {
    Relay(RelayChain),
    Script(Script<Vec<u8>>),
    Board(PumpBoard),
}

impl Line for AnyLine {
    ghost answers = { any_answers };

    ghost causal = { any_causal };

    fn both(&mut self, b: u8) -> u8 {
        match self {
            AnyLine::Relay(chain) => chain.both(b),
            AnyLine::Script(script) => script.both(b),
            AnyLine::Board(board) => board.both(b),
        }
    }

    fn out(&mut self, b: u8) {
        match self {
            AnyLine::Relay(chain) => chain.out(b),
            AnyLine::Script(script) => script.out(b),
            AnyLine::Board(board) => board.out(b),
        }
    }

    fn receive(&mut self) -> u8 {
        match self {
            AnyLine::Relay(chain) => chain.receive(),
            AnyLine::Script(script) => script.receive(),
            AnyLine::Board(board) => board.receive(),
        }
    }

    fn head(&mut self, h: Head) {
        match self {
            AnyLine::Relay(chain) => chain.head(h),
            AnyLine::Script(script) => script.head(h),
            AnyLine::Board(board) => board.head(h),
        }
    }
}
