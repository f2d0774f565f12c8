// The one way from a splitter to the bus below: `below` is private here, and each way to it asks that a call is short.
ghost use Rattle.std.specs.Prelude.{◌≡◌, true, ◌≤◌, min, max, length};
ghost use Rattle.bus.specs.Answers.{Ran, after};

use bus::bus::SpiBus;

// The most bytes that a splitter may be asked to pass in a call.
const LONGEST: usize = 64;

// `most` bytes pass in a call at the most.
#[derive(Drop)]
pub(crate) struct Port<B> {
    most: usize,
    below: B,
    ghost some: { 1 ≤ most },
    ghost few: { most ≤ 64 },
}

impl<B> Port<B> {
    // `most` is brought into 1 to 64.
    pub(crate) fn new(most: usize, below: B) -> Port<B>
        ensures most { result.most ≡ max 1 (min most 64) }
        ensures below { result.below ≡ below }
    {
        Port {
            most: most.clamp(1, LONGEST),
            below,
        }
    }

    pub(crate) fn most(&self) -> usize
        ensures value { result ≡ self.now.most }
    {
        self.most
    }

    pub(crate) fn into_below(self) -> B
        ensures value { result ≡ self.below }
    {
        let Port { most: _, below } = self;
        below
    }
}

// Each call says that `most` stays: a bound that the caller keeps and passes along could be another than this port's.
impl<B: SpiBus> Port<B> {
    pub(crate) fn exchange(&mut self, piece: &mut [u8])
        requires short { length piece.old ≤ self.old.most }
        ensures ran { Ran (B.SpiBus.answers self.old.below) piece.old piece.new (B.SpiBus.answers self.new.below) }
        ensures most { self.new.most ≡ self.old.most }
    {
        self.below.transfer_in_place(piece);
    }

    pub(crate) fn send(&mut self, piece: &[u8])
        requires short { length piece.now ≤ self.old.most }
        ensures left { B.SpiBus.answers self.new.below ≡ after (B.SpiBus.answers self.old.below) piece.now }
        ensures most { self.new.most ≡ self.old.most }
    {
        self.below.write(piece);
    }

    pub(crate) fn flush(&mut self)
        ensures same { B.SpiBus.answers self.new.below ≡ B.SpiBus.answers self.old.below }
        ensures rests { B.SpiBus.idle self.new.below ≡ true }
        ensures most { self.new.most ≡ self.old.most }
    {
        self.below.flush();
    }
}
