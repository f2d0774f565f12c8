// Calls through layers, over any line.
ghost use Rattle.std.specs.Prelude.{◌≡◌, true, List, [], length, is_ok, IfOk, MatchResult, nat_le};
ghost use Rattle.bus.specs.Calls.{calls_of};
ghost use Rattle.layer.specs.Kinds.{Kind};
ghost use Rattle.pile.specs.Piles.{Alike, Performed};
ghost use Rattle.stack.specs.Stacks.{driven, most_layers, onto};

use crate::depth::{Deeper, Depth, Flat};
use crate::setup::{LayerSetup, MOST_LAYERS};
use bus::bare::Bare;
use bus::call::BusCall;
use pile::bottom::Bottom;
use wire::line::Line;

// As deep as `MOST_LAYERS`.
type Deepest = Deeper<Deeper<Deeper<Deeper<Flat>>>>;

// Each layer stands on top of those before it. The line is handed back; as it was, with nothing sent, where there are
// more than `MOST_LAYERS` layers.
pub fn run_through<L: Line>(line: L, layers: &[LayerSetup], calls: &mut [BusCall]) -> Result<L, L>
    ensures test { is_ok result ≡ nat_le (length layers.now) most_layers }
    ensures performed { MatchResult result (λ l. Performed (onto [] layers.now) (calls_of calls.old) (calls_of calls.new) (driven (L.Line.answers line)) (driven (L.Line.answers l))) (λ l. (l ≡ line) × (calls_of calls.new ≡ calls_of calls.old)) }
    ensures parity { IfOk result (λ l. (ks : List Kind) → Alike (onto [] layers.now) ks → Performed ks (calls_of calls.old) (calls_of calls.new) (driven (L.Line.answers line)) (driven (L.Line.answers l))) }
{
    if layers.len() > MOST_LAYERS {
        return Err(line);
    }
    let pile = Deepest::run(Bottom::new(Bare::new(line)), layers, calls);
    Ok(pile.into_bus().into_line())
}
