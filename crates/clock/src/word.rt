// The clock word of a source rate and a wanted frequency. Rates are in Hz.
ghost use Rattle.std.specs.Prelude.{◌≡◌, ℕ, ◌<◌, ◌≤◌, Result};
ghost use Rattle.clock.specs.Clock.{Clocked, clock_word, divided_word, direct};

use crate::dividers::dividers;
use crate::error::ConfigError;

// The clock is the source itself, undivided.
const DIRECT: u32 = 0x8000_0000;

// Above three quarters of the source rate, no divider is used.
pub fn is_direct(source: u32, frequency: u32) -> bool
    ensures { result ≡ direct source frequency }
{
    frequency > source / 4 * 3
}

// The clock word of the divider n and its prescaler. No type carries their ranges: the search answers the
// pair (n, pre) itself, which configurations and reports hand on.
fn divided_word(n: u32, pre: u32) -> u32
    requires { (2 ≤ n) × ((n ≤ 64) × ((1 ≤ pre) × (pre ≤ 16))) }
    ensures { result ≡ divided_word n pre }
{
    let high = (128 * n + 127) / 256;
    (n - 1) + (high - 1) * 64 + (n - 1) * 4096 + (pre - 1) * 262144
}

// The clock word: the direct one, or that of the best dividers; refused at frequency 0.
pub fn clock_word(source: u32, frequency: u32) -> Result<u32, ConfigError>
    ensures value { result ≡ clock_word source frequency }
    ensures law { Clocked source frequency result }
    ensures only { (q : Result ℕ ConfigError) → Clocked source frequency q → result ≡ q }
{
    if is_direct(source, frequency) {
        return Ok(DIRECT);
    }
    let (n, pre) = dividers(source, frequency).ok_or(ConfigError::FrequencyOutOfRange)?;
    Ok(divided_word(n, pre))
}
