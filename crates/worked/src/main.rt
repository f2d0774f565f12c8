// The worked values: proved of the definitions, and run.

#![tactic(auto)]

ghost use Rattle.std.specs.Prelude.{◌≡◌, length};
ghost use Rattle.worked.specs.Worked.{Worked, examples};

use config::clocking::{Clocking, ask_clock};
use mirror::mirrored;
use std::io;

const SOURCE: u32 = 80_000_000;

const COUNT: usize = 8;

// The rules give every worked value.
fn worked_values() -> usize
    ensures worked { Worked }
    ensures count { result ≡ length examples }
{
    COUNT
}

fn show(rt: &HostRuntime, frequency: u32, clocking: Clocking) -> io::Result<()> {
    let word = clocking.word;
    match clocking.dividers {
        Some((n, pre)) => println!(rt; "clock {frequency}: n {n} pre {pre} word 0x{word:x}"),
        None => println!(rt; "clock {frequency}: direct word 0x{word:x}"),
    }
}

fn main(rt: HostRuntime) -> io::Result<()> {
    for frequency in [
        1_000_000, 60_000_000, 60_000_001, 78_125, 78_124, 80_000_001,
    ] {
        match ask_clock(SOURCE, frequency) {
            Ok(clocking) => show(&rt, frequency, clocking)?,
            Err(e) => println!(rt; "clock {frequency}: refused {}", e.number())?,
        }
    }
    println!(rt; "mirror 0x16: 0x{:x}", mirrored(0x16))?;
    println!(rt; "{} values proved", worked_values())
}
