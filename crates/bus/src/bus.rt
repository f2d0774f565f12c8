// A bus, known by the bytes that it gives back and by whether it is idle. A bus refuses nothing.
ghost use Rattle.std.specs.Prelude.{◌≡◌, ℕ, Bool, true, List, length, take, replicate};
ghost use Rattle.wire.specs.Answers.{padded};
ghost use Rattle.bus.specs.Answers.{Causal, Ran, after};

use wire::calls::load;

pub trait SpiBus {
    // what it answers to each list of bytes sent from now on
    ghost answers: { Self → List ℕ → List ℕ };

    ghost causal: { (s : Self) → Causal (answers s) };

    // whether no work is left that a call has begun
    ghost idle: { Self → Bool };

    // Sends the bytes, and drops what comes back.
    fn write(&mut self, words: &[u8])
        ensures left { answers self.new ≡ after (answers self.old) words.now };

    // Replaces each byte by the answer to it.
    fn transfer_in_place(&mut self, words: &mut [u8])
        ensures ran { Ran (answers self.old) words.old words.new (answers self.new) };

    // Waits until all work is done.
    fn flush(&mut self)
        ensures same { answers self.new ≡ answers self.old }
        ensures rests { idle self.new ≡ true };

    // Sends 0x00 for each place, and fills it with the answer.
    fn read(&mut self, words: &mut [u8])
        ensures ran { Ran (answers self.old) (replicate (length words.old) 0) words.new (answers self.new) }
    {
        words.fill(0x00);
        self.transfer_in_place(words);
    }

    // Sends the bytes, then 0x00 as long as there are places left, and fills each place with the answer to its byte.
    fn transfer(&mut self, read: &mut [u8], write: &[u8])
        ensures filled { read.new ≡ take (length read.old) (answers self.old (padded write.now (length read.old))) }
        ensures left { answers self.new ≡ after (answers self.old) (padded write.now (length read.old)) }
    {
        load(read, write);
        self.transfer_in_place(read);
        self.write(&write[read.len().min(write.len())..]);
    }
}
