// Lists of bus calls on piles.
ghost use Rattle.std.specs.Prelude.{◌≡◌, true, List, [], ◌∷◌};
ghost use Rattle.bus.specs.Bare.{bare};
ghost use Rattle.bus.specs.Calls.{calls_of};
ghost use Rattle.layer.specs.Kinds.{Kind, inverter, mirror};
ghost use Rattle.pile.specs.Piles.{Alike, Performed};

use crate::bottom::Bottom;
use crate::pile::Pile;
use bus::bare::Bare;
use bus::call::{BusCall, perform};
use layer::change::{Inverter, Mirror};
use layer::layer::Layer;
use splitter::splitter::Splitter;
use wire::line::Line;

// Each call in turn, on any pile. The pile is a bus; the bus beneath is left as its layers say; and any other layers of
// the same parity would have given the same bytes and left the same.
pub fn run_calls<P: Pile>(pile: &mut P, calls: &mut [BusCall])
    ensures is_bus { Performed [] (calls_of calls.old) (calls_of calls.new) (record { answers = P.SpiBus.answers pile.old; idle = P.SpiBus.idle pile.old }) (record { answers = P.SpiBus.answers pile.new; idle = P.SpiBus.idle pile.new }) }
    ensures performed { Performed P.Pile.layers (calls_of calls.old) (calls_of calls.new) (P.Pile.beneath pile.old) (P.Pile.beneath pile.new) }
    ensures parity { (ls : List Kind) → Alike P.Pile.layers ls → Performed ls (calls_of calls.old) (calls_of calls.new) (P.Pile.beneath pile.old) (P.Pile.beneath pile.new) }
{
    for call in calls.iter_mut() {
        perform(pile, call);
    }
}

// Equal lists of calls on two piles: where mirrors, and inverters, differ in number by even amounts and the buses
// beneath answer alike, the calls get equal bytes and the buses beneath go on answering alike.
pub fn run_both<P: Pile, Q: Pile>(
    first: &mut P,
    second: &mut Q,
    calls: &mut [BusCall],
    again: &mut [BusCall],
)
    ensures first { Performed P.Pile.layers (calls_of calls.old) (calls_of calls.new) (P.Pile.beneath first.old) (P.Pile.beneath first.new) }
    ensures second { Performed Q.Pile.layers (calls_of again.old) (calls_of again.new) (Q.Pile.beneath second.old) (Q.Pile.beneath second.new) }
    ensures received { Alike P.Pile.layers Q.Pile.layers → (P.Pile.beneath first.old).answers ≡ (Q.Pile.beneath second.old).answers → calls_of calls.old ≡ calls_of again.old → calls_of calls.new ≡ calls_of again.new }
    ensures left { Alike P.Pile.layers Q.Pile.layers → (P.Pile.beneath first.old).answers ≡ (Q.Pile.beneath second.old).answers → calls_of calls.old ≡ calls_of again.old → (P.Pile.beneath first.new).answers ≡ (Q.Pile.beneath second.new).answers }
{
    run_calls(first, calls);
    run_calls(second, again);
}

// A mirror over a splitter over an inverter over a bare line, which is handed back: what the line itself answers
// before and after, with no word of what a pile says of itself.
pub fn run_on_line<L: Line>(line: L, most: usize, calls: &mut [BusCall]) -> L
    ensures performed { Performed (mirror ∷ inverter ∷ []) (calls_of calls.old) (calls_of calls.new) (record { answers = bare (L.Line.answers line); idle = true }) (record { answers = bare (L.Line.answers result); idle = true }) }
{
    let inverted = Layer::new(Inverter, Bottom::new(Bare::new(line)));
    let mut pile = Layer::new(Mirror, Splitter::new(most, inverted));
    run_calls(&mut pile, calls);
    pile.into_below()
        .into_below()
        .into_below()
        .into_bus()
        .into_line()
}
