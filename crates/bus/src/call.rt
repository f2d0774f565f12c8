// A bus call as a value, with its buffers.
ghost use Rattle.std.specs.Prelude.{◌≡◌, true};
ghost use Rattle.bus.specs.Answers.{after};
ghost use Rattle.bus.specs.Calls.{answered, call_of, flush, places, sent};

use crate::bus::SpiBus;
use std::alloc::Global;

// A transfer has the places to read into first, then the bytes to write.
#[derive(Drop)]
pub enum BusCall {
    Write(Vec<u8>),
    Read(Vec<u8>),
    Transfer(Vec<u8>, Vec<u8>),
    TransferInPlace(Vec<u8>),
    Flush,
}

// One call, on any bus.
pub fn perform<B: SpiBus>(bus: &mut B, call: &mut BusCall)
    ensures answered { call_of call.new ≡ answered (call_of call.old) (B.answers bus.old (sent (call_of call.old))) }
    ensures left { B.answers bus.new ≡ after (B.answers bus.old) (sent (call_of call.old)) }
    ensures rests { call_of call.old ≡ flush → B.idle bus.new ≡ true }
{
    match call {
        BusCall::Write(words) => bus.write(words.as_slice()),
        BusCall::Read(words) => bus.read(words.as_mut_slice()),
        BusCall::Transfer(read, write) => bus.transfer(read.as_mut_slice(), write.as_slice()),
        BusCall::TransferInPlace(words) => bus.transfer_in_place(words.as_mut_slice()),
        BusCall::Flush => bus.flush(),
    }
}

impl BusCall {
    // The places that the call fills.
    pub fn into_places(self, heap: Global) -> Vec<u8>
        ensures value { result.items ≡ places (call_of self) }
    {
        match self {
            BusCall::Read(places) | BusCall::TransferInPlace(places) => places,
            BusCall::Transfer(places, _) => places,
            BusCall::Write(_) | BusCall::Flush => Vec::new(heap),
        }
    }
}
