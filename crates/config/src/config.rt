// A configuration of an SPI master: its settings, with the clock word that belongs to them.
ghost use Rattle.std.specs.Prelude.{◌≡◌, true, is_ok};
ghost use Rattle.clock.specs.Clock.{Behind, Clocked, Made, Validated, clock_word, in_range, pair_behind};
ghost use Rattle.config.specs.Settings.{holding, with_frequency, with_mode, with_reading, with_source, with_writing};

use crate::mode::{BitOrder, Mode};
use crate::settings::Settings;
use clock::dividers::dividers;
use clock::error::ConfigError;
use clock::word::{clock_word, is_direct};

const MIN_SOURCE: u32 = 1_000_000;

const MAX_SOURCE: u32 = 160_000_000;

// The source rate is in range, and the clock word is that of the source rate and the frequency. Ghost fields and no model:
// of a value that is passed in, each caller knows both facts, and a struct or an array that holds one is copied freely.
#[derive(Clone, Copy)]
pub struct Config {
    settings: Settings,
    reg: Result<u32, ConfigError>,
    ghost ranged: { in_range settings.source ≡ true },
    ghost own: { reg ≡ clock_word settings.source settings.frequency },
}

impl Config {
    // Refused where the source rate is out of range.
    fn of(settings: Settings) -> Result<Config, ConfigError>
        ensures { Made settings.source (λ c. c.settings ≡ settings) result }
    {
        if !(MIN_SOURCE..=MAX_SOURCE).contains(&settings.source) {
            return Err(ConfigError::BadSource);
        }
        let reg = clock_word(settings.source, settings.frequency);
        Ok(Config { settings, reg })
    }

    // Refused where the source rate is out of range; any frequency is taken.
    pub fn new(
        source: u32,
        frequency: u32,
        mode: Mode,
        read_bit_order: BitOrder,
        write_bit_order: BitOrder,
    ) -> Result<Config, ConfigError>
        ensures { Made source (λ c. c.settings ≡ holding source frequency mode read_bit_order write_bit_order) result }
    {
        Config::of(Settings {
            source,
            frequency,
            mode,
            read_bit_order,
            write_bit_order,
        })
    }

    // Refused where the new source rate is out of range.
    pub fn with_source(self, source: u32) -> Result<Config, ConfigError>
        ensures { Made source (λ c. c.settings ≡ with_source self.settings source) result }
    {
        Config::of(Settings {
            source,
            ..self.settings
        })
    }

    pub fn with_frequency(self, frequency: u32) -> Config
        ensures value { result.settings ≡ with_frequency self.settings frequency }
        ensures range { in_range result.settings.source ≡ true }
    {
        let mut settings = self.settings;
        settings.frequency = frequency;
        let reg = clock_word(settings.source, frequency);
        Config { settings, reg }
    }

    pub fn with_mode(mut self, mode: Mode) -> Config
        ensures value { result.settings ≡ with_mode self.settings mode }
        ensures range { in_range result.settings.source ≡ true }
    {
        self.settings.mode = mode;
        self
    }

    pub fn with_read_bit_order(mut self, read_bit_order: BitOrder) -> Config
        ensures value { result.settings ≡ with_reading self.settings read_bit_order }
        ensures range { in_range result.settings.source ≡ true }
    {
        self.settings.read_bit_order = read_bit_order;
        self
    }

    pub fn with_write_bit_order(mut self, write_bit_order: BitOrder) -> Config
        ensures value { result.settings ≡ with_writing self.settings write_bit_order }
        ensures range { in_range result.settings.source ≡ true }
    {
        self.settings.write_bit_order = write_bit_order;
        self
    }

    pub fn source(&self) -> u32
        ensures value { result ≡ self.now.settings.source }
        ensures range { in_range result ≡ true }
    {
        self.settings.source
    }

    pub fn frequency(&self) -> u32
        ensures { result ≡ self.now.settings.frequency }
    {
        self.settings.frequency
    }

    pub fn mode(&self) -> Mode
        ensures { result ≡ self.now.settings.mode }
    {
        self.settings.mode
    }

    pub fn read_bit_order(&self) -> BitOrder
        ensures { result ≡ self.now.settings.read_bit_order }
    {
        self.settings.read_bit_order
    }

    pub fn write_bit_order(&self) -> BitOrder
        ensures { result ≡ self.now.settings.write_bit_order }
    {
        self.settings.write_bit_order
    }

    // The clock word, or its refusal at frequency 0.
    pub fn raw_clock_reg_value(&self) -> Result<u32, ConfigError>
        ensures value { let t = self.now.settings in result ≡ clock_word t.source t.frequency }
        ensures law { let t = self.now.settings in Clocked t.source t.frequency result }
    {
        self.reg
    }

    // The divider n and the prescaler of the clock word; none where the word is the direct one or refused.
    pub fn dividers(&self) -> Option<(u32, u32)>
        ensures value { let t = self.now.settings in result ≡ pair_behind t.source t.frequency }
        ensures law { let t = self.now.settings in Behind t.source t.frequency self.now.reg result }
    {
        let (source, frequency) = (self.source(), self.frequency());
        if is_direct(source, frequency) {
            return None;
        }
        dividers(source, frequency)
    }

    // Whether a driver takes the frequency: from 1/1024 of the source rate to the source rate.
    pub fn validate(&self) -> Result<(), ConfigError>
        ensures range { let t = self.now.settings in Validated t.source t.frequency result }
        ensures worded { is_ok result ≡ true → is_ok self.now.reg ≡ true }
    {
        let (source, frequency) = (self.source(), self.frequency());
        if (source / 1024..=source).contains(&frequency) {
            Ok(())
        } else {
            Err(ConfigError::FrequencyOutOfRange)
        }
    }
}
