// What is wrong with a scenario.
ghost use Rattle.std.specs.Prelude.{◌≡◌, Some};
ghost use Rattle.faults.specs.declared.fault.Refusal.TheVariants.{Unread, NoMemory};
ghost use Rattle.faults.specs.Faults.{expected_text, fault_at, fault_text};

use std::alloc::{AllocError, AllocFailed};
use std::error::Error;
use std::fmt;

#[derive(Clone, Copy, Debug)]
pub enum Expected {
    Name,
    LineKind,
    Number,
    Count,
    Hex,
    Bytes(usize),
    Slot,
    MoreWords,
    NoMoreWords,
    OneLine,
    LineBeforeCalls,
}

// Why a line was not read.
#[derive(Clone, Copy)]
pub enum Refusal {
    Unread(Expected),
    NoMemory,
}

// Lines count from 1.
#[derive(Clone, Copy, Debug)]
pub enum Fault {
    Bad { line: usize, expected: Expected },
    Memory,
}

impl Refusal {
    // The fault that it is at a line.
    pub fn at(self, line: usize) -> Fault
        ensures { result ≡ fault_at self line }
    {
        match self {
            Refusal::Unread(expected) => Fault::Bad { line, expected },
            Refusal::NoMemory => Fault::Memory,
        }
    }
}

impl From<Expected> for Refusal {
    ghost from_gives = { λ e r. r ≡ Unread e };

    fn from(e: Expected) -> Refusal {
        Refusal::Unread(e)
    }
}

impl From<AllocError> for Refusal {
    ghost from_gives = { λ _ r. r ≡ NoMemory };

    fn from(_e: AllocError) -> Refusal {
        Refusal::NoMemory
    }
}

impl<T: Drop> From<AllocFailed<T>> for Refusal {
    ghost from_gives = { λ _ r. r ≡ NoMemory };

    fn from(_e: AllocFailed<T>) -> Refusal {
        Refusal::NoMemory
    }
}

impl fmt::Display for Expected {
    ghost output = { λ e. Some (expected_text e) };

    fn fmt<W: fmt::Write>(&self, f: &mut fmt::Formatter<W>) -> fmt::Result {
        match *self {
            Expected::Name => f.write_str("expected the name of a statement"),
            Expected::LineKind => f.write_str("expected relay, script or board"),
            Expected::Number => f.write_str("expected a number below 4294967296"),
            Expected::Count => f.write_str("expected a number up to 65536"),
            Expected::Hex => f.write_str("expected an even number of hex digits, or - for none"),
            Expected::Bytes(n) => write!(f, "expected bytes in hex, exactly {n} of them"),
            Expected::Slot => f.write_str("expected a slot from 0 to 7, or none"),
            Expected::MoreWords => f.write_str("expected more words"),
            Expected::NoMoreWords => f.write_str("expected no more words"),
            Expected::OneLine => f.write_str("expected a line statement only once"),
            Expected::LineBeforeCalls => f.write_str(
                "expected the line statement before the first call",
            ),
        }
    }
}

impl fmt::Display for Fault {
    ghost output = { λ f. Some (fault_text f) };

    fn fmt<W: fmt::Write>(&self, f: &mut fmt::Formatter<W>) -> fmt::Result {
        match *self {
            Fault::Bad { line, expected } => write!(f, "line {line}: {expected}"),
            Fault::Memory => f.write_str("out of memory"),
        }
    }
}

impl Error for Fault {}
