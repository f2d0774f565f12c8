// What a line of a scenario can say.
ghost use Rattle.std.specs.Prelude.{◌≡◌};
ghost use Rattle.faults.specs.declared.fault.Expected.TheVariants.{Name, LineKind as NoLineKind};
ghost use Rattle.faults.specs.Readings.{wanted};
ghost use Rattle.scenario.specs.Statements.{keyword, line_kind};

use board::pump::Board;
use faults::fault::Expected;

// A relay holds 1 to 16 bytes, the oldest first.
#[derive(Drop)]
pub enum LineSetup {
    Relay(Vec<u8>),
    Script(Vec<u8>),
    Board(Board),
}

#[derive(Drop)]
pub enum Call {
    BusWrite(Vec<u8>),
    BusRead(usize),
    BusTransfer(usize, Vec<u8>),
    TransferInPlace(Vec<u8>),
    Flush,
    Clock(u32),
}

#[derive(Drop)]
pub enum Statement {
    Line(LineSetup),
    Source(u32),
    Call(Call),
}

// The calls by their names.
#[derive(Clone, Copy)]
pub enum CallName {
    BusWrite,
    BusRead,
    BusTransfer,
    TransferInPlace,
    Flush,
    Clock,
}

#[derive(Clone, Copy)]
pub enum Keyword {
    Line,
    Source,
    Call(CallName),
}

impl TryFrom<&[u8]> for Keyword {
    type Error = Expected;

    ghost try_from_gives = { λ w r. r ≡ wanted Name (keyword w.now) };

    fn try_from(word: &[u8]) -> Result<Keyword, Expected> {
        match word {
            b"line" => Ok(Keyword::Line),
            b"source" => Ok(Keyword::Source),
            b"bus_write" => Ok(Keyword::Call(CallName::BusWrite)),
            b"bus_read" => Ok(Keyword::Call(CallName::BusRead)),
            b"bus_transfer" => Ok(Keyword::Call(CallName::BusTransfer)),
            b"transfer_in_place" => Ok(Keyword::Call(CallName::TransferInPlace)),
            b"flush" => Ok(Keyword::Call(CallName::Flush)),
            b"clock" => Ok(Keyword::Call(CallName::Clock)),
            _ => Err(Expected::Name),
        }
    }
}

#[derive(Clone, Copy)]
pub enum LineKind {
    Relay,
    Script,
    Board,
}

impl TryFrom<&[u8]> for LineKind {
    type Error = Expected;

    ghost try_from_gives = { λ w r. r ≡ wanted NoLineKind (line_kind w.now) };

    fn try_from(word: &[u8]) -> Result<LineKind, Expected> {
        match word {
            b"relay" => Ok(LineKind::Relay),
            b"script" => Ok(LineKind::Script),
            b"board" => Ok(LineKind::Board),
            _ => Err(Expected::LineKind),
        }
    }
}
