// Calls on any line.
ghost use Rattle.std.specs.Prelude.{◌≡◌, ℕ, ◌<◌, [], ◌∷◌, map, length, take, replicate, slice_index};
ghost use Rattle.std.specs.Option.{option_to_list};
ghost use Rattle.wire.specs.declared.event.Event.TheVariants.{Both, Out, In};
ghost use Rattle.wire.specs.Answers.{Ran, after, padded};

use crate::event::Event;
use crate::line::Line;

// Sends each byte, and drops what comes back.
pub fn send<L: Line>(line: &mut L, bytes: &[u8])
    ensures left { L.answers line.new ≡ after (L.answers line.old) (map Both bytes.now) }
{
    for b in bytes {
        let _ = line.both(*b);
    }
}

// Replaces each byte by the answer to it.
pub fn exchange_in_place<L: Line>(line: &mut L, buf: &mut [u8])
    ensures ran { Ran (L.answers line.old) (map Both buf.old) buf.new (L.answers line.new) }
{
    for b in buf.iter_mut() {
        *b = line.both(*b);
    }
}

// Sends 0x00 for each place, and fills it with the answer.
// This and `transfer` say which events pass; a bus has calls of these names that know bytes alone.
pub fn read<L: Line>(line: &mut L, buf: &mut [u8])
    ensures ran { Ran (L.answers line.old) (map Both (replicate (length buf.old) 0)) buf.new (L.answers line.new) }
{
    buf.fill(0x00);
    exchange_in_place(line, buf);
}

// Sends the bytes, then 0x00 as long as there are places left, and fills each place with the answer to its byte.
pub fn transfer<L: Line>(line: &mut L, buf: &mut [u8], bytes: &[u8])
    ensures filled { buf.new ≡ take (length buf.old) (L.answers line.old (map Both (padded bytes.now (length buf.old)))) }
    ensures left { L.answers line.new ≡ after (L.answers line.old) (map Both (padded bytes.now (length buf.old))) }
{
    load(buf, bytes);
    exchange_in_place(line, buf);
    send(line, &bytes[buf.len().min(bytes.len())..]);
}

// Puts the byte to send into each place, 0x00 where there is none.
pub fn load(buf: &mut [u8], bytes: &[u8])
    ensures loaded { (k : ℕ) → k < length buf.old → slice_index buf.new k ≡ slice_index bytes.now k }
{
    let (placed, pads) = buf.split_at_mut(buf.len().min(bytes.len()));
    placed.copy_from_slice(&bytes[..placed.len()]);
    pads.fill(0x00);
}

// Sends each byte, with nothing to come back.
// This and `receive` have loops of their own, for their own events: over a closure the contract would outgrow both.
pub fn send_only<L: Line>(line: &mut L, bytes: &[u8])
    ensures ran { Ran (L.answers line.old) (map Out bytes.now) [] (L.answers line.new) }
{
    for b in bytes {
        line.out(*b);
    }
}

// Receives a byte for each place, and sends none.
pub fn receive<L: Line>(line: &mut L, buf: &mut [u8])
    ensures ran { Ran (L.answers line.old) (replicate (length buf.old) In) buf.new (L.answers line.new) }
{
    for b in buf.iter_mut() {
        *b = line.receive();
    }
}

// One event, whichever it is, and the byte that came back.
pub fn apply<L: Line>(line: &mut L, event: Event) -> Option<u8>
    ensures ran { Ran (L.answers line.old) (event ∷ []) (option_to_list result) (L.answers line.new) }
{
    match event {
        Event::Both(b) => Some(line.both(b)),
        Event::Out(b) => {
            line.out(b);
            None
        }
        Event::In => Some(line.receive()),
        Event::Head(h) => {
            line.head(h);
            None
        }
    }
}
