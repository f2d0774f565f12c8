// One step of a scenario.
ghost use Rattle.std.specs.Prelude.{◌≡◌, IfOk};
ghost use Rattle.scenario.specs.Models.{call_model};
ghost use Rattle.bench.specs.Calls.{Done};
ghost use Rattle.bench.specs.Steps.{Tells, accepted};

use crate::perform::perform;
use clock::error::ConfigError;
use config::clocking::{Clocking, ask_clock};
use scenario::statement::Call;
use scenario::whole::Step;
use std::alloc::{AllocError, Global};
use wire::line::Line;

// The places of a call after it, and the answer to a question for a clock word.
#[derive(Drop)]
pub struct Outcome {
    pub buffer: Vec<u8>,
    pub clock: Option<Result<Clocking, ConfigError>>,
}

// The answer where the step asks for a clock word.
pub fn clock_of(step: &Step) -> Option<Result<Clocking, ConfigError>>
    ensures tells { Tells step.now.source (call_model step.now.call) result }
{
    match &step.call {
        Call::Clock(frequency) => Some(ask_clock(step.source, *frequency)),
        _ => None,
    }
}

// Where there is no memory for the places, nothing is sent.
pub fn take_step<L: Line>(heap: Global, line: &mut L, step: &Step) -> Result<Outcome, AllocError>
    ensures done { Done (call_model step.now.call) (L.answers line.old) result (λ o. o.buffer.items) (L.answers line.new) }
    ensures tells { IfOk result (λ o. Tells step.now.source (call_model step.now.call) o.clock) }
{
    let buffer = perform(heap, line, &step.call)?;
    Ok(Outcome {
        buffer,
        clock: clock_of(step),
    })
}

// Whether a call was accepted: only a question for a clock word can be refused.
pub fn is_accepted(outcome: &Outcome) -> bool
    ensures value { result ≡ accepted outcome.now.clock }
{
    !matches!(&outcome.clock, Some(Err(_)))
}
