// A pile, by its layers and the bus beneath them.
ghost use Rattle.std.specs.Prelude.{◌≡◌, List, [], ◌∷◌, refl};
ghost use Rattle.layer.specs.Kinds.{Kind, changed};
ghost use Rattle.pile.specs.Piles.{Bus, lifted};
ghost use Rattle.std.proofs.Common.{ap};

use crate::bottom::Bottom;
use bus::bus::SpiBus;
use layer::change::Change;
use layer::layer::Layer;
use splitter::splitter::Splitter;

pub trait Pile: SpiBus {
    // the mirrors and inverters, the top one first
    ghost layers: { List Kind };

    ghost beneath: { Self → Bus };

    ghost through: { (s : Self) → Self.SpiBus.answers s ≡ lifted layers (beneath s).answers };

    ghost rests: { (s : Self) → Self.SpiBus.idle s ≡ (beneath s).idle };
}

impl<B: SpiBus> Pile for Bottom<B> {
    ghost layers = { [] };

    ghost beneath = { λ s. record { answers = B.SpiBus.answers s.bus; idle = B.SpiBus.idle s.bus } };

    ghost through = { λ _. refl };

    ghost rests = { λ _. refl };
}

impl<C: Change, B: Pile> Pile for Layer<C, B> {
    ghost layers = { C.Change.kind ∷ B.Pile.layers };

    ghost beneath = { λ s. B.Pile.beneath s.below };

    ghost through = { λ s. ap (changed C.Change.kind) (B.Pile.through s.below) };

    ghost rests = { λ s. B.Pile.rests s.below };
}

impl<B: Pile> Pile for Splitter<B> {
    ghost layers = { B.Pile.layers };

    ghost beneath = { λ s. B.Pile.beneath s.port.below };

    ghost through = { λ s. B.Pile.through s.port.below };

    ghost rests = { λ s. B.Pile.rests s.port.below };
}
