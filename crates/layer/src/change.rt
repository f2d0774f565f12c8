// Changes of a byte that undo themselves.
ghost use Rattle.std.specs.Prelude.{◌≡◌, ℕ};
ghost use Rattle.layer.specs.Kinds.{Flips, Kind, change, inverter, mirror};
ghost use Rattle.layer.specs.Undone.{change_twice};

use mirror::mirrored;

pub trait Change {
    ghost kind: { Kind };

    ghost undoes: { (x : ℕ) → change kind (change kind x) ≡ x };

    fn changed(&self, byte: u8) -> u8
        ensures value { result ≡ change kind byte };
}

// Bit 0 for bit 7 and so on.
#[derive(Clone, Copy)]
pub struct Mirror;

// Every bit flipped.
#[derive(Clone, Copy)]
pub struct Inverter;

// The byte with every bit flipped. Inverted again it is itself.
pub fn inverted(byte: u8) -> u8
    ensures value { result ≡ change inverter byte }
    ensures bits { Flips byte result }
    ensures back { change inverter result ≡ byte }
{
    0xFF - byte
}

impl Change for Mirror {
    ghost kind = { mirror };

    ghost undoes = { change_twice mirror };

    fn changed(&self, byte: u8) -> u8 {
        mirrored(byte)
    }
}

impl Change for Inverter {
    ghost kind = { inverter };

    ghost undoes = { change_twice inverter };

    fn changed(&self, byte: u8) -> u8 {
        inverted(byte)
    }
}
