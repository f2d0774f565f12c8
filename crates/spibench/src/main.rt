// Reads a scenario, performs it on the bench, and prints what happened.

#![tactic(auto)]

ghost use Rattle.std.specs.Prelude.{◌≡◌};

use anyhow::{Context, ensure};
use bench::options::Options;
use bench::setup::hang;
use bench::step::{is_accepted, take_step};
use bench::totals::Totals;
use lines::any::AnyLine;
use scenario::whole::{Scenario, Step, read_scenario};
use show::{CallText, EventsText, LineText, call_name};
use std::io::Read;
use std::process::ExitCode;
use std::{env, fs};
use wire::recorder::Recorder;

fn main(rt: HostRuntime) -> anyhow::Result<ExitCode> {
    match run(&rt) {
        Ok(()) => Ok(ExitCode::SUCCESS),
        Err(e) => {
            eprintln!(rt; "spibench: {e}")?;
            Ok(ExitCode::FAILURE)
        }
    }
}

fn run(rt: &HostRuntime) -> anyhow::Result<()> {
    let Options { state, file } = read_options(rt)?;
    let text = read_text(rt, file)?;
    let scenario = read_scenario(rt.alloc(), text.as_slice())?;
    perform(rt, state, scenario)
}

fn read_options(rt: &HostRuntime) -> anyhow::Result<Options> {
    let mut options = Options::default();
    for word in env::args(rt)?.skip(1) {
        options.take(word)?;
    }
    Ok(options)
}

// The file, or standard input where none is named.
fn read_text(rt: &HostRuntime, file: Option<String>) -> anyhow::Result<Vec<u8>> {
    if let Some(name) = file {
        return Ok(fs::read(rt, name.as_str())?);
    }
    let mut text = Vec::new(rt.alloc());
    rt.stdin().read_to_end(&mut text)?;
    Ok(text)
}

fn perform(rt: &HostRuntime, state: bool, scenario: Scenario) -> anyhow::Result<()> {
    let Scenario { line, steps } = scenario;
    let line = hang(line).context("no such line")?;
    let mut wire = Recorder::new(rt.alloc(), line);
    let mut totals = Totals::new();
    for step in &steps {
        perform_step(rt, &mut wire, &mut totals, step)?;
        if state {
            let text = line_text(&wire, "  ");
            println!(rt; "{text}")?;
        }
    }
    // One write: a reader that gets the state gets the counts.
    let text = line_text(&wire, "");
    println!(rt; "{text}\n{totals}")?;
    Ok(())
}

// The line's state now, each row indented.
fn line_text<'a>(wire: &'a Recorder<AnyLine>, indent: &'a str) -> LineText<'a>
    ensures line { result.line.now ≡ wire.now.line }
    ensures indent { result.indent.now ≡ indent.now }
{
    LineText {
        line: wire.line(),
        indent,
    }
}

fn perform_step(
    rt: &HostRuntime,
    wire: &mut Recorder<AnyLine>,
    totals: &mut Totals,
    step: &Step,
) -> anyhow::Result<()> {
    wire.clear();
    let outcome = take_step(rt.alloc(), wire, step)?;
    ensure!(wire.complete(), "no memory for the events");
    totals.count(is_accepted(&outcome), wire.events().len());
    let call = CallText {
        number: totals.calls,
        name: call_name(&step.call),
        outcome: &outcome,
    };
    let events = EventsText(wire.events());
    println!(rt; "{call}\n{events}")?;
    Ok(())
}
