// A pump board: eight slots, each with its holder and the one before.
ghost use Rattle.std.specs.Prelude.{◌≡◌, ℕ, ◌<◌, ◌≤◌, true, length, replicate, is_some, IfSome, Some, None, slice_index_or};
ghost use Rattle.wire.specs.Answers.{after};
ghost use Rattle.wire.specs.Causality.{run_causal};
ghost use Rattle.wire.specs.Machine.{run};
ghost use Rattle.board.specs.Board.{Bytewide, acted, free, mark_and_look, one_of_eight, pump, rows};
ghost use Rattle.board.specs.BoardBytes.{pump_bytes};

use wire::calls::exchange_in_place;
use wire::event::Head;
use wire::line::Line;

// A holder is the byte that the wire carries, in which 0 stands for nobody.
#[derive(Clone, Copy, Default)]
pub struct Slot {
    pub holder: u8,
    pub previous: u8,
}

// The eight slots stand in the board itself, with no heap.
#[derive(Clone, Copy)]
pub struct Board {
    pub slots: [Slot; 8],
    pub reply: u8,
    pub awaited: Option<u8>,
}

// Nobody holds a slot or held one before, and none is awaited.
impl Default for Board {
    ghost is_default = { λ b. b ≡ record { slots = replicate 8 free; reply = 0; awaited = None } };

    fn default() -> Board {
        Board {
            slots: [Slot::default(); 8],
            reply: 0x00,
            awaited: None,
        }
    }
}

#[derive(Drop)]
pub struct PumpBoard {
    board: Board,
    ghost eight: { length board.slots ≡ 8 },
    ghost awaits: { one_of_eight board.awaited ≡ true },
    ghost bytes: { Bytewide board },
}

fn mark(slot: &mut Slot, b: u8)
    ensures after { slot.new ≡ record { holder = b; previous = slot.old.holder } }
{
    slot.previous = slot.holder;
    slot.holder = b;
}

// The slots, of their holders and of the holders before.
pub fn slot_table(holders: [u8; 8], previous: [u8; 8]) -> [Slot; 8]
    ensures value { result ≡ rows holders previous }
{
    std::array::from_fn(|k| Slot {
        holder: holders[k],
        previous: previous[k],
    })
}

impl Slot {
    // Of a slot passed by value both are known to be bytes, and of one within an array not yet.
    fn holds_bytes(self)
        ensures { (self.holder < 256) × (self.previous < 256) }
    {}
}

impl Board {
    // Changes nothing: its clauses are what a pump board's ghost fields ask.
    fn holds_bytes(&self)
        ensures eight { length self.now.slots ≡ 8 }
        ensures bytes { Bytewide self.now }
    {
        for slot in &self.slots {
            slot.holds_bytes();
        }
        let _reply = self.reply;
    }
}

impl PumpBoard {
    pub fn new() -> PumpBoard
        ensures { result.board ≡ record { slots = replicate 8 free; reply = 0; awaited = None } }
    {
        PumpBoard {
            board: Board::default(),
        }
    }

    // A board in any state; none where the slot awaited is not one of the eight.
    pub fn starting(board: Board) -> Option<PumpBoard>
        ensures test { is_some result ≡ one_of_eight board.awaited }
        ensures board { IfSome result (λ p. p.board ≡ board) }
    {
        board.holds_bytes();
        match board.awaited {
            Some(k) if k >= 8 => None,
            _ => Some(PumpBoard { board }),
        }
    }

    // The slots, the reply and the slot awaited.
    pub fn board(&self) -> &Board
        ensures value { result.now ≡ self.now.board }
    {
        &self.board
    }

    // Marks a slot over the wire, then looks, and looks back: who holds it now and who did before.
    // None, and nothing is sent, where the slot is not one of the eight.
    pub fn mark_and_look(&mut self, slot: u8, holder: u8) -> Option<Slot>
        ensures refused { 8 ≤ slot → (result ≡ None) × (self.new.board ≡ self.old.board) }
        ensures read_back { slot < 8 → self.old.board.awaited ≡ None → result ≡ Some (record { holder = holder; previous = (slice_index_or self.old.board.slots slot free).holder }) }
        ensures left { slot < 8 → run pump self.new.board ≡ after (run pump self.old.board) (mark_and_look slot holder) }
    {
        if slot >= 8 {
            return None;
        }
        let mut bytes = [0x20 + slot, holder, 0x10 + slot, 0x30 + slot, 0x00];
        exchange_in_place(self, &mut bytes);
        Some(Slot {
            holder: bytes[3],
            previous: bytes[4],
        })
    }

    fn act(&mut self, b: u8)
        ensures { self.new.board ≡ acted self.old.board b }
    {
        if let Some(i) = self.board.awaited {
            mark(&mut self.board.slots[i as usize], b);
            self.board.awaited = None;
            self.board.reply = 0x00;
            return;
        }
        match b {
            0x10..=0x17 => self.board.reply = self.board.slots[(b - 0x10) as usize].holder,
            0x30..=0x37 => self.board.reply = self.board.slots[(b - 0x30) as usize].previous,
            0x20..=0x27 => {
                self.board.awaited = Some(b - 0x20);
                self.board.reply = 0x00;
            }
            _ => self.board.reply = 0x00,
        }
    }
}

impl Line for PumpBoard {
    ghost answers = { λ p. run pump p.board };

    ghost causal = { λ p. run_causal pump pump_bytes p.board p.bytes };

    fn both(&mut self, b: u8) -> u8 {
        let ready = self.board.reply;
        self.act(b);
        ready
    }

    fn out(&mut self, b: u8) {
        self.act(b);
    }

    fn receive(&mut self) -> u8 {
        self.both(0x00)
    }

    fn head(&mut self, _h: Head) {
        self.board.awaited = None;
    }
}
