// A pile's type grows with each layer, so a pile that is built at run time has a greatest depth: here a type too.
// No `dyn` pile in its place: a `dyn` that is made over the line's type parameter gets no proof.
ghost use Rattle.std.specs.Prelude.{◌≡◌, ℕ, suc, ◌<◌, ◌≤◌, length};
ghost use Rattle.bus.specs.Calls.{calls_of};
ghost use Rattle.pile.specs.Piles.{Performed};
ghost use Rattle.stack.specs.Stacks.{onto};

use crate::setup::LayerSetup;
use bus::call::BusCall;
use layer::change::{Inverter, Mirror};
use layer::layer::Layer;
use pile::pile::Pile;
use pile::run::run_calls;
use splitter::splitter::Splitter;

pub(crate) trait Depth {
    ghost most: { ℕ };

    // The calls through the layers over a pile, which is handed back. Where there are too many layers nothing is done.
    fn run<P: Pile>(pile: P, layers: &[LayerSetup], calls: &mut [BusCall]) -> P
        ensures performed { length layers.now ≤ most → Performed (onto P.Pile.layers layers.now) (calls_of calls.old) (calls_of calls.new) (P.Pile.beneath pile) (P.Pile.beneath result) }
        ensures refused { most < length layers.now → (result ≡ pile) × (calls_of calls.new ≡ calls_of calls.old) };
}

// No layer.
pub(crate) struct Flat;

// One more than `D` has.
pub(crate) struct Deeper<D>(D);

impl Depth for Flat {
    ghost most = { 0 };

    fn run<P: Pile>(mut pile: P, layers: &[LayerSetup], calls: &mut [BusCall]) -> P {
        if layers.is_empty() {
            run_calls(&mut pile, calls);
        }
        pile
    }
}

impl<D: Depth> Depth for Deeper<D> {
    ghost most = { suc D.Depth.most };

    fn run<P: Pile>(mut pile: P, layers: &[LayerSetup], calls: &mut [BusCall]) -> P {
        match layers {
            [] => {
                run_calls(&mut pile, calls);
                pile
            }
            [LayerSetup::Mirror, rest @ ..] => {
                D::run(Layer::new(Mirror, pile), rest, calls).into_below()
            }
            [LayerSetup::Inverter, rest @ ..] => {
                D::run(Layer::new(Inverter, pile), rest, calls).into_below()
            }
            [LayerSetup::Split(most), rest @ ..] => {
                D::run(Splitter::new(*most, pile), rest, calls).into_below()
            }
        }
    }
}
