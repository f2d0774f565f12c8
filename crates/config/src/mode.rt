// How bits go over the wires.

// The SPI mode, by its number: the clock's idle level and the edge that samples.
#[derive(Clone, Copy, PartialEq, Eq, Debug)]
pub enum Mode {
    _0,
    _1,
    _2,
    _3,
}

#[derive(Clone, Copy, PartialEq, Eq, Debug)]
pub enum BitOrder {
    MsbFirst,
    LsbFirst,
}
