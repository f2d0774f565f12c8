// The question for a clock word.
ghost use Rattle.config.specs.Clocking.{Asked};

use crate::config::Config;
use crate::mode::{BitOrder, Mode};
use clock::error::ConfigError;

// A clock word, and the divider n with its prescaler; none where the word is the direct one.
#[derive(Clone, Copy)]
pub struct Clocking {
    pub word: u32,
    pub dividers: Option<(u32, u32)>,
}

// The clock word of a source rate and a frequency that a driver would take, in Hz. Two plain numbers: a struct of the two
// would be made here to be taken apart.
pub fn ask_clock(source: u32, frequency: u32) -> Result<Clocking, ConfigError>
    ensures asked { Asked source frequency result }
{
    let config = Config::new(
        source,
        frequency,
        Mode::_0,
        BitOrder::MsbFirst,
        BitOrder::MsbFirst,
    )?;
    config.validate()?;
    let word = config.raw_clock_reg_value()?;
    Ok(Clocking {
        word,
        dividers: config.dividers(),
    })
}
