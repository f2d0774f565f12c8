// The worked value of layers: proved of the definitions, and run; and one list of calls on two piles.

#![tactic(auto)]

ghost use Rattle.std.specs.Prelude.{◌≡◌, length};
ghost use Rattle.worked_piles.specs.Worked.{Worked, held};

use bus::bare::Bare;
use bus::bus::SpiBus;
use bus::call::BusCall;
use layer::change::{Inverter, Mirror};
use layer::layer::Layer;
use pile::bottom::Bottom;
use pile::run::run_both;
use relay::RelayChain;
use splitter::splitter::Splitter;
use std::alloc::Global;
use std::io;

const COUNT: usize = 2;

// The rules give the worked value.
#[tactic(auto, unfolding(layer::specs::Kinds::invert))]
fn worked_value() -> usize
    ensures worked { Worked }
    ensures count { result ≡ length held }
{
    COUNT
}

// A blank before each byte.
fn show_bytes(rt: &HostRuntime, bytes: &[u8]) -> io::Result<()> {
    for b in bytes {
        print!(rt; " {b:02x}")?;
    }
    Ok(())
}

// An inverter over a bare relay chain of one byte.
fn read_inverted(rt: &HostRuntime) -> io::Result<()> {
    let mut layer = Layer::new(Inverter, Bare::new(RelayChain::new(1)));
    let mut words = [0xAA; 2];
    layer.read(&mut words);
    print!(rt; "inverter over a relay chain of one, read of two:")?;
    show_bytes(rt, &words)?;
    println!(rt; "")
}

fn some_calls(heap: Global) -> anyhow::Result<Vec<BusCall>> {
    let sent = vec![in heap; 0x01, 0x02, 0x03]?;
    let swapped = vec![in heap; 0xA0, 0xB1]?;
    let places = vec![in heap; 0xAA; 4]?;
    let calls = vec![in heap;
        BusCall::Write(sent),
        BusCall::TransferInPlace(swapped),
        BusCall::Read(places),
        BusCall::Flush,
    ]?;
    Ok(calls)
}

// The places of each call.
fn show_calls(rt: &HostRuntime, name: &str, calls: Vec<BusCall>) -> anyhow::Result<()> {
    print!(rt; "{name}:")?;
    for call in calls {
        let places = call.into_places(rt.alloc());
        print!(rt; " [")?;
        show_bytes(rt, places.as_slice())?;
        print!(rt; " ]")?;
    }
    println!(rt; "")?;
    Ok(())
}

// The same calls on two piles of equal parity, each over a relay chain of three bytes.
fn run_alike(rt: &HostRuntime) -> anyhow::Result<()> {
    let mirrored = Layer::new(Mirror, Bottom::new(Bare::new(RelayChain::new(3))));
    let mut three = Layer::new(Mirror, Layer::new(Inverter, mirrored));
    let inverted = Layer::new(Inverter, Bottom::new(Bare::new(RelayChain::new(3))));
    let mut one = Splitter::new(2, inverted);
    let mut calls = some_calls(rt.alloc())?;
    let mut again = some_calls(rt.alloc())?;
    run_both(
        &mut three,
        &mut one,
        calls.as_mut_slice(),
        again.as_mut_slice(),
    );
    show_calls(rt, "mirror, inverter, mirror", calls)?;
    show_calls(rt, "inverter, split 2", again)
}

fn main(rt: HostRuntime) -> anyhow::Result<()> {
    read_inverted(&rt)?;
    run_alike(&rt)?;
    println!(rt; "{} places proved", worked_value())?;
    Ok(())
}
