// A layer: the one text of every byte change over a bus.
ghost use Rattle.std.specs.Prelude.{◌≡◌, ◌≤◌, length};
ghost use Rattle.bus.specs.Answers.{Ran, after};
ghost use Rattle.layer.specs.Kinds.{changed};
ghost use Rattle.layer.specs.Changed.{changed_causal};

use crate::change::Change;
use crate::scratch::{PIECE, changed_piece, hand_back};
use bus::bus::SpiBus;

// It sends bytes changed and hands answers back changed, its own pads included.
#[derive(Drop)]
pub struct Layer<C, B> {
    change: C,
    below: B,
}

impl<C, B> Layer<C, B> {
    pub fn new(change: C, below: B) -> Layer<C, B>
        ensures change { result.change ≡ change }
        ensures below { result.below ≡ below }
    {
        Layer { change, below }
    }
}

impl<C: Drop, B> Layer<C, B> {
    pub fn into_below(self) -> B
        ensures value { result ≡ self.below }
    {
        let Layer { change: _, below } = self;
        below
    }
}

impl<C: Change, B: SpiBus> Layer<C, B> {
    // Replaces each byte of a piece by the answer to it. `read` below would send a pad that is not changed.
    fn exchange(&mut self, piece: &mut [u8])
        requires { length piece.old ≤ 64 }
        ensures ran { Ran (changed C.Change.kind (B.SpiBus.answers self.old.below)) piece.old piece.new (changed C.Change.kind (B.SpiBus.answers self.new.below)) }
    {
        let mut bytes = changed_piece(&self.change, piece).bytes;
        self.below.transfer_in_place(&mut bytes[..piece.len()]);
        hand_back(&self.change, &bytes, piece);
    }

    // Sends each byte of a piece, and drops what comes back.
    fn send(&mut self, piece: &[u8])
        requires { length piece.now ≤ 64 }
        ensures left { changed C.Change.kind (B.SpiBus.answers self.new.below) ≡ after (changed C.Change.kind (B.SpiBus.answers self.old.below)) piece.now }
    {
        let bytes = changed_piece(&self.change, piece).bytes;
        self.below.write(&bytes[..piece.len()]);
    }
}

impl<C: Change, B: SpiBus> SpiBus for Layer<C, B> {
    ghost answers = { λ s. changed C.Change.kind (B.SpiBus.answers s.below) };

    ghost causal = { λ s. changed_causal C.Change.kind (B.SpiBus.answers s.below) (B.SpiBus.causal s.below) };

    ghost idle = { λ s. B.SpiBus.idle s.below };

    // These two loops are the splitter's too: one text for both would be public and ask for short pieces.
    fn write(&mut self, words: &[u8]) {
        for piece in words.chunks(PIECE) {
            self.send(piece);
        }
    }

    fn transfer_in_place(&mut self, words: &mut [u8]) {
        // By place, since a proof does not see what is written through `chunks_mut`.
        for done in (0..words.len()).step_by(PIECE) {
            let len = (words.len() - done).min(PIECE);
            self.exchange(&mut words[done..done + len]);
        }
    }

    fn flush(&mut self) {
        self.below.flush();
    }
}
