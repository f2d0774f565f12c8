// A whole scenario.
ghost use Rattle.std.specs.Prelude.{◌≡◌, IfOk, Ok};
ghost use Rattle.scenario.specs.Models.{line_model, statement_model};
ghost use Rattle.faults.specs.Readings.{Reads};
ghost use Rattle.scenario.specs.Scenarios.{finished, start, with_line, with_said, with_text};
ghost use Rattle.scenario.specs.Tales.{Tells};
ghost use Rattle.scenario.specs.Wholes.{ReadAs, scenario_model};
ghost use Rattle.scenario.specs.Wrongs.{NamesFirst};

use crate::read::read_statement;
use crate::statement::{Call, LineSetup, Statement};
use board::pump::Board;
use faults::fault::{Expected, Fault, Refusal};
use std::alloc::Global;
use std::marker::Model;
use words::words::Words;

const DEFAULT_SOURCE: u32 = 80_000_000;

// A call, and the rate of the source that holds at it.
#[derive(Drop)]
pub struct Step {
    pub source: u32,
    pub call: Call,
}

#[derive(Drop)]
pub struct Scenario {
    pub line: LineSetup,
    pub steps: Vec<Step>,
}

// What the lines so far say.
#[derive(Drop)]
struct Reader {
    heap: Global,
    line: Option<LineSetup>,
    source: u32,
    steps: Vec<Step>,
}

impl Model for Reader {
    ghost use Rattle.scenario.specs.Scenarios.{Sofar};

    ghost Value = { Sofar };

    ghost use Rattle.scenario.specs.Wholes.{sofar};

    ghost view = { sofar };
}

impl Reader {
    fn new(heap: Global) -> Reader
        ensures { result ≡ start }
    {
        Reader {
            heap,
            line: None,
            source: DEFAULT_SOURCE,
            steps: Vec::new(heap),
        }
    }

    fn set_line(&mut self, line: LineSetup) -> Result<(), Refusal>
        ensures { Reads (λ _. self.new) result (with_line self.old (line_model line)) }
    {
        if self.line.is_some() {
            return Err(Expected::OneLine.into());
        }
        if !self.steps.is_empty() {
            return Err(Expected::LineBeforeCalls.into());
        }
        self.line = Some(line);
        Ok(())
    }

    fn take(&mut self, statement: Statement) -> Result<(), Refusal>
        ensures { Reads (λ _. self.new) result (with_said self.old (statement_model statement)) }
    {
        match statement {
            Statement::Line(line) => self.set_line(line),
            Statement::Source(hz) => {
                self.source = hz;
                Ok(())
            }
            Statement::Call(call) => {
                self.steps.push(Step {
                    source: self.source,
                    call,
                })?;
                Ok(())
            }
        }
    }

    // One line more.
    fn read_line(&mut self, line: &[u8]) -> Result<(), Refusal>
        ensures { Reads (λ _. self.new) result (with_text self.old line.now) }
    {
        match read_statement(self.heap, &mut Words::new(line))? {
            Some(statement) => self.take(statement),
            None => Ok(()),
        }
    }

    // Without a line statement: a fresh board.
    fn finish(self) -> Scenario
        ensures { Ok (scenario_model result) ≡ finished (Ok self) }
    {
        Scenario {
            line: self.line.unwrap_or(LineSetup::Board(Board::default())),
            steps: self.steps,
        }
    }
}

pub fn read_scenario(heap: Global, text: &[u8]) -> Result<Scenario, Fault>
    ensures reads { ReadAs result text.now }
    ensures first { NamesFirst result text.now }
    ensures tells { IfOk result (λ s. Tells text.now (scenario_model s)) }
{
    let mut reader = Reader::new(heap);
    for (i, line) in text.split(|b| *b == b'\n').enumerate() {
        reader.read_line(line).map_err(|refusal| refusal.at(i + 1))?;
    }
    Ok(reader.finish())
}
