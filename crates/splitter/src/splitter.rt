// A splitter: it passes at most so many bytes in a call, and alters no answer.
ghost use Rattle.std.specs.Prelude.{◌≡◌, min, max};

use crate::port::Port;
use bus::bus::SpiBus;

#[derive(Drop)]
pub struct Splitter<B> {
    port: Port<B>,
}

impl<B> Splitter<B> {
    // `most` is brought into 1 to 64.
    pub fn new(most: usize, below: B) -> Splitter<B>
        ensures most { result.port.most ≡ max 1 (min most 64) }
        ensures below { result.port.below ≡ below }
    {
        Splitter {
            port: Port::new(most, below),
        }
    }

    pub fn into_below(self) -> B
        ensures value { result ≡ self.port.below }
    {
        let Splitter { port } = self;
        port.into_below()
    }
}

impl<B: SpiBus> SpiBus for Splitter<B> {
    ghost answers = { λ s. B.SpiBus.answers s.port.below };

    ghost causal = { λ s. B.SpiBus.causal s.port.below };

    ghost idle = { λ s. B.SpiBus.idle s.port.below };

    // These two loops are a layer's too: one text for both would be public and ask for short pieces.
    fn write(&mut self, words: &[u8]) {
        for piece in words.chunks(self.port.most()) {
            self.port.send(piece);
        }
    }

    fn transfer_in_place(&mut self, words: &mut [u8]) {
        // By place, since a proof does not see what is written through `chunks_mut`.
        let most = self.port.most();
        for done in (0..words.len()).step_by(most) {
            let len = (words.len() - done).min(most);
            self.port.exchange(&mut words[done..done + len]);
        }
    }

    fn flush(&mut self) {
        self.port.flush();
    }
}
