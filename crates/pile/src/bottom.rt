// Any bus, as a pile with nothing on it.
ghost use Rattle.std.specs.Prelude.{◌≡◌};

use bus::bus::SpiBus;

#[derive(Drop)]
pub struct Bottom<B> {
    bus: B,
}

impl<B> Bottom<B> {
    pub fn new(bus: B) -> Bottom<B>
        ensures value { result.bus ≡ bus }
    {
        Bottom { bus }
    }

    pub fn into_bus(self) -> B
        ensures value { result ≡ self.bus }
    {
        let Bottom { bus } = self;
        bus
    }
}

impl<B: SpiBus> SpiBus for Bottom<B> {
    ghost answers = { λ s. B.SpiBus.answers s.bus };

    ghost causal = { λ s. B.SpiBus.causal s.bus };

    ghost idle = { λ s. B.SpiBus.idle s.bus };

    fn write(&mut self, words: &[u8]) {
        self.bus.write(words);
    }

    fn transfer_in_place(&mut self, words: &mut [u8]) {
        self.bus.transfer_in_place(words);
    }

    fn flush(&mut self) {
        self.bus.flush();
    }

    fn read(&mut self, words: &mut [u8]) {
        self.bus.read(words);
    }

    fn transfer(&mut self, read: &mut [u8], write: &[u8]) {
        self.bus.transfer(read, write);
    }
}
