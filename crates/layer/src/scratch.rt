// A piece of a buffer, changed.
ghost use Rattle.std.specs.Prelude.{◌≡◌, ◌≤◌, map, length, take};
ghost use Rattle.layer.specs.Kinds.{change};

use crate::change::Change;

// The most bytes of a piece.
pub(crate) const PIECE: usize = 64;

// Places for a piece, with no heap; those past its end mean nothing.
#[derive(Clone, Copy)]
pub(crate) struct Scratch {
    pub(crate) bytes: [u8; PIECE],
}

// Each byte of a piece, changed, one after another.
pub(crate) fn changed_piece<C: Change>(by: &C, piece: &[u8]) -> Scratch
    requires { length piece.now ≤ 64 }
    ensures room { length result.bytes ≡ 64 }
    ensures bytes { take (length piece.now) result.bytes ≡ map (change C.kind) piece.now }
{
    let mut scratch = Scratch { bytes: [0; PIECE] };
    for (i, byte) in piece.iter().enumerate() {
        scratch.bytes[i] = by.changed(*byte);
    }
    scratch
}

// Writes as many bytes of `from` as the piece has places, each changed, to their places.
pub(crate) fn hand_back<C: Change>(by: &C, from: &[u8], piece: &mut [u8])
    requires { length piece.old ≤ length from.now }
    ensures bytes { piece.new ≡ map (change C.kind) (take (length piece.old) from.now) }
{
    for (i, byte) in from[..piece.len()].iter().enumerate() {
        piece[i] = by.changed(*byte);
    }
}
