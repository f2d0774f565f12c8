// What hangs on a wire, known by the bytes that it gives back. A line refuses nothing.
ghost use Rattle.std.specs.Prelude.{ℕ, List, [], ◌∷◌};
ghost use Rattle.wire.specs.declared.event.Event.{Event};
ghost use Rattle.wire.specs.declared.event.Event.TheVariants.{Both, Out, In};
ghost use Rattle.wire.specs.Answers.{Causal, Ran};

use crate::event::Head;

pub trait Line {
    // what it answers to each list of events from now on
    ghost answers: { Self → List Event → List ℕ };

    ghost causal: { (s : Self) → Causal (answers s) };

    fn both(&mut self, b: u8) -> u8
        ensures ran { Ran (answers self.old) (Both b ∷ []) (result ∷ []) (answers self.new) };

    fn out(&mut self, b: u8)
        ensures ran { Ran (answers self.old) (Out b ∷ []) [] (answers self.new) };

    fn receive(&mut self) -> u8
        ensures ran { Ran (answers self.old) (In ∷ []) (result ∷ []) (answers self.new) };

    fn head(&mut self, h: Head)
        ensures ran { Ran (answers self.old) (Event.Head h ∷ []) [] (answers self.new) };
}
