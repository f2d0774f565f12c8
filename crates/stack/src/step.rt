// A step that is written as a scenario's, through layers.
ghost use Rattle.std.specs.Prelude.{◌≡◌, [], length, IfOk, MatchResult};
ghost use Rattle.std.specs.Option.{option_map};
ghost use Rattle.bench.specs.Steps.{Tells};
ghost use Rattle.bus.specs.Calls.{call_of};
ghost use Rattle.scenario.specs.Models.{call_model};
ghost use Rattle.stack.specs.declared.step.Stop.TheVariants.{NoMemory};
ghost use Rattle.stack.specs.Stacks.{driven, onto};
ghost use Rattle.stack.specs.Passes.{Passed, Stopped, bus_call};

use crate::setup::LayerSetup;
use crate::through::run_through;
use bench::perform::BLANK;
use bench::step::{Outcome, clock_of};
use bus::call::BusCall;
use scenario::statement::Call;
use scenario::whole::Step;
use std::alloc::{AllocError, Global};
use wire::line::Line;

// Why a step was not taken.
#[derive(Clone, Copy)]
pub enum Stop {
    NoMemory,
    TooManyLayers,
}

impl From<AllocError> for Stop {
    ghost from_gives = { λ _ r. r ≡ NoMemory };

    fn from(_e: AllocError) -> Stop {
        Stop::NoMemory
    }
}

// The bus call that a statement writes, with its buffers; none for a question. No `TryFrom`, which is given no heap.
pub fn bus_call(heap: Global, call: &Call) -> Result<Option<BusCall>, AllocError>
    ensures value { IfOk result (λ o. option_map call_of o ≡ bus_call (call_model call.now)) }
{
    Ok(Some(match call {
        Call::BusWrite(bytes) => BusCall::Write(bytes.as_slice().to_vec(heap)?),
        Call::BusRead(n) => BusCall::Read(vec![in heap; BLANK; *n]?),
        Call::BusTransfer(n, bytes) => {
            BusCall::Transfer(vec![in heap; BLANK; *n]?, bytes.as_slice().to_vec(heap)?)
        }
        Call::TransferInPlace(bytes) => { BusCall::TransferInPlace(bytes.as_slice().to_vec(heap)?) }
        Call::Flush => BusCall::Flush,
        Call::Clock(_) => return Ok(None),
    }))
}

// The line is handed back, with what came of the step.
pub fn take_layered<L: Line + Drop>(
    heap: Global,
    line: L,
    layers: &[LayerSetup],
    step: &Step,
) -> Result<(L, Outcome), Stop>
    ensures passed { MatchResult result (λ p. Passed (onto [] layers.now) (bus_call (call_model step.now.call)) (driven (L.Line.answers line)) (driven (L.Line.answers p.0)) p.1.buffer.items) (λ e. Stopped e (length layers.now)) }
    ensures tells { IfOk result (λ p. Tells step.now.source (call_model step.now.call) p.1.clock) }
{
    let clock = clock_of(step);
    let mut call = bus_call(heap, &step.call)?;
    let line = run_through(line, layers, call.as_mut_slice()).map_err(|_| Stop::TooManyLayers)?;
    let buffer = call.map_or_else(|| Vec::new(heap), |call| call.into_places(heap));
    Ok((line, Outcome { buffer, clock }))
}
