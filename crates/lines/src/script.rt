// A script: a line that reads its answers from bytes, lent (`&[u8]`) or its own (`Vec<u8>`).
ghost use Rattle.std.specs.Prelude.{◌≡◌, ◌≤◌, min, [], ◌∷◌, length, drop};
ghost use Rattle.wire.specs.declared.event.Event.TheVariants.{Both};
ghost use Rattle.wire.specs.Answers.{Bytes, Ran};
ghost use Rattle.wire.specs.ByteLists.{bytes_drop};
ghost use Rattle.wire.specs.Causality.{run_causal};
ghost use Rattle.wire.specs.Machine.{run};
ghost use Rattle.lines.specs.Script.{script, script_bytes};

use std::convert::AsSlice;
use wire::event::Head;
use wire::line::Line;

#[derive(Drop)]
pub struct Script<B: AsSlice<u8>> {
    bytes: B,
    at: usize,
    ghost within: { at ≤ length (B.items bytes) },
    ghost ok: { Bytes (B.items bytes) },
}

// `at`, or the end where that is past it. Here the items are known to be bytes, as of any slice that is passed.
fn place(bytes: &[u8], at: usize) -> usize
    ensures value { result ≡ min at (length bytes.now) }
    ensures ok { Bytes bytes.now }
{
    at.min(bytes.len())
}

impl<B: AsSlice<u8>> Script<B> {
    pub fn new(bytes: B) -> Script<B>
        ensures bytes { result.bytes ≡ bytes }
        ensures at { result.at ≡ 0 }
    {
        Script::resuming(bytes, 0)
    }

    // A script of which the first `at` answers are gone; past the end none is left.
    pub fn resuming(bytes: B, at: usize) -> Script<B>
        ensures bytes { result.bytes ≡ bytes }
        ensures at { result.at ≡ min at (length (B.items bytes)) }
    {
        let at = place(bytes.as_slice(), at);
        Script { bytes, at }
    }

    // The answers still to come before the end.
    pub fn rest(&self) -> &[u8]
        ensures value { result.now ≡ drop self.now.at (B.items self.now.bytes) }
    {
        &self.bytes.as_slice()[self.at..]
    }
}

impl<B: AsSlice<u8>> Line for Script<B> {
    ghost answers = { λ s. run script (drop s.at (B.items s.bytes)) };

    ghost causal = { λ s. run_causal script script_bytes (drop s.at (B.items s.bytes)) (bytes_drop s.at (B.items s.bytes) s.ok) };

    fn both(&mut self, b: u8) -> u8
        ensures ran { Ran (run script (drop self.old.at (B.items self.old.bytes))) (Both b ∷ []) (result ∷ []) (run script (drop self.new.at (B.items self.new.bytes))) }
        ensures bytes { self.new.bytes ≡ self.old.bytes }
    {
        match self.bytes.as_slice().get(self.at) {
            Some(b) => {
                self.at += 1;
                *b
            }
            None => 0xFF,
        }
    }

    fn out(&mut self, _b: u8) {}

    fn receive(&mut self) -> u8 {
        self.both(0x00)
    }

    fn head(&mut self, _h: Head) {}
}

#[cfg(test)]
mod tests {
    use super::Script;
    use wire::calls::exchange_in_place;

    // Through the bound `Line`, over a slice that the script does not own.
    #[test]
    fn a_lent_script_answers_to_its_end(rt: HostRuntime) {
        let lent = [0x12, 0x34, 0x56];
        let mut script = Script::resuming(&lent[..], 1);
        let mut sent = [0x00; 3];
        exchange_in_place(&mut script, &mut sent);
        assert_eq!(rt; sent, [0x34, 0x56, 0xFF]);
    }
}
