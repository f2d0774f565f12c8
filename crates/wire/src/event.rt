// What a wire carries.

// What goes before the data of a half-duplex call; an absent part has width 0 and value 0.
// Plain numbers, as a report prints them: with an `Option` for a part, one of width 0 would say the same as none.
#[derive(Clone, Copy)]
pub struct Head {
    pub command_width: u32,
    pub command_value: u32,
    pub address_width: u32,
    pub address_value: u32,
    pub dummy_cycles: u32,
}

#[derive(Clone, Copy)]
pub enum Event {
    // sends a byte and receives one
    Both(u8),
    // only sends
    Out(u8),
    // only receives
    In,
    Head(Head),
}
