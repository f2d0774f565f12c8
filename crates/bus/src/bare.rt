// A bare line, driven by Boths: a bus that is always idle.
ghost use Rattle.std.specs.Prelude.{◌≡◌, true};
ghost use Rattle.bus.specs.Bare.{bare, bare_causal};

use crate::bus::SpiBus;
use wire::calls;
use wire::line::Line;

#[derive(Drop)]
pub struct Bare<L> {
    line: L,
}

impl<L> Bare<L> {
    pub fn new(line: L) -> Bare<L>
        ensures value { result.line ≡ line }
    {
        Bare { line }
    }

    pub fn into_line(self) -> L
        ensures value { result ≡ self.line }
    {
        let Bare { line } = self;
        line
    }
}

impl<L: Line> SpiBus for Bare<L> {
    ghost answers = { λ s. bare (L.Line.answers s.line) };

    ghost causal = { λ s. bare_causal (L.Line.answers s.line) (L.Line.causal s.line) };

    ghost idle = { λ _. true };

    fn write(&mut self, words: &[u8]) {
        calls::send(&mut self.line, words);
    }

    fn transfer_in_place(&mut self, words: &mut [u8]) {
        calls::exchange_in_place(&mut self.line, words);
    }

    fn flush(&mut self) {}
}
