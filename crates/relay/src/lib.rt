// A relay chain: a shift register of 1 to 16 bytes.

#![tactic(auto)]

ghost use Rattle.std.specs.Prelude.{◌≡◌, ◌<◌, min, max, ◌&&◌, ◌++◌, length, take, drop, replicate, is_some, IfSome, nat_le, slice_index};
ghost use Rattle.wire.specs.Answers.{Bytes};
ghost use Rattle.wire.specs.Machine.{run};
ghost use Rattle.wire.specs.ByteLists.{bytes_drop};
ghost use Rattle.wire.specs.Causality.{run_causal};
ghost use Rattle.relay.specs.Relay.{Delayed, chain, chain_bytes, held, shifted};

use wire::calls::exchange_in_place;
use wire::event::Head;
use wire::line::Line;

const MOST: usize = 16;

// The bytes held stand at the end, from `first` on, the oldest first.
// An array and a place in it, and no `Vec`: a chain is made with no heap, and its making cannot fail.
#[derive(Drop)]
pub struct Cells {
    bytes: [u8; MOST],
    first: usize,
}

// Clauses say `held` of the cells: a model whose value is the list held would lose that its numbers are bytes,
// which `causal` needs.
#[derive(Drop)]
pub struct RelayChain {
    cells: Cells,
    ghost some: { cells.first < length cells.bytes },
    ghost bytes: { Bytes cells.bytes },
}

impl RelayChain {
    // All 0x00; the length is brought into 1 to 16.
    pub fn new(len: usize) -> RelayChain
        ensures held { held result.cells ≡ replicate (max 1 (min len 16)) 0 }
    {
        RelayChain {
            cells: Cells {
                bytes: [0; MOST],
                first: MOST - len.clamp(1, MOST),
            },
        }
    }

    // A chain that holds these bytes, the oldest first; none where they are not 1 to 16.
    pub fn holding(bytes: &[u8]) -> Option<RelayChain>
        ensures test { is_some result ≡ (nat_le 1 (length bytes.now) && nat_le (length bytes.now) 16) }
        ensures held { IfSome result (λ c. held c.cells ≡ bytes.now) }
    {
        let len = bytes.len();
        if !(1..=MOST).contains(&len) {
            return None;
        }
        let first = MOST - len;
        let mut cells = [0; MOST];
        cells[first..].copy_from_slice(bytes);
        Some(RelayChain {
            cells: Cells {
                bytes: cells,
                first,
            },
        })
    }

    // The bytes held, the oldest first.
    pub fn held(&self) -> &[u8]
        ensures value { result.now ≡ held self.now.cells }
    {
        &self.cells.bytes[self.cells.first..]
    }

    // Each byte is replaced by the one that was sent as many bytes earlier as the chain holds.
    pub fn pass(&mut self, buf: &mut [u8])
        ensures value { buf.new ≡ take (length buf.old) (held self.old.cells ++ buf.old) }
        ensures delayed { Delayed (held self.old.cells) buf.old buf.new }
        ensures left { run chain (held self.new.cells) ≡ run chain (drop (length buf.old) (held self.old.cells ++ buf.old)) }
    {
        exchange_in_place(self, buf);
    }

    fn shift(&mut self, b: u8) -> u8
        ensures fell { result ≡ slice_index (held self.old.cells) 0 }
        ensures held { held self.new.cells ≡ shifted (held self.old.cells) b }
    {
        let oldest = self.cells.bytes[self.cells.first];
        self.cells.bytes.rotate_left(1);
        self.cells.bytes[MOST - 1] = b;
        oldest
    }
}

impl Line for RelayChain {
    ghost answers = { λ s. run chain (held s.cells) };

    ghost causal = { λ s. run_causal chain chain_bytes (held s.cells) (bytes_drop s.cells.first s.cells.bytes s.bytes) };

    fn both(&mut self, b: u8) -> u8 {
        self.shift(b)
    }

    fn out(&mut self, b: u8) {
        let _ = self.shift(b);
    }

    fn receive(&mut self) -> u8 {
        self.shift(0x00)
    }

    fn head(&mut self, _h: Head) {}
}
