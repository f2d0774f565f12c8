// The plain settings of a configuration.
use crate::mode::{BitOrder, Mode};

// Rates are in Hz.
#[derive(Clone, Copy)]
pub struct Settings {
    pub source: u32,
    pub frequency: u32,
    pub mode: Mode,
    pub read_bit_order: BitOrder,
    pub write_bit_order: BitOrder,
}
