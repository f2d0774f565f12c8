// Layers to put on a line.

// The most of them.
pub const MOST_LAYERS: usize = 4;

// Put on top of what is there. A splitter brings its bound into range itself.
#[derive(Clone, Copy)]
pub enum LayerSetup {
    Mirror,
    Inverter,
    Split(usize),
}
