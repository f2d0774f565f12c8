// Why a configuration or its clock is refused.
ghost use Rattle.std.specs.Prelude.{◌≡◌};
ghost use Rattle.clock.specs.Clock.{number};

#[derive(Clone, Copy, PartialEq, Eq, Debug)]
pub enum ConfigError {
    FrequencyOutOfRange = 3,
    BadSource = 4,
}

impl ConfigError {
    // The number that the refusal is reported by.
    pub fn number(self) -> u8
        ensures { result ≡ number self }
    {
        self as u8
    }
}
