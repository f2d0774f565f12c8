// The bus calls of a scenario, on any line. The heap is lent to what allocates and is no part of a line, so the two are
// no struct.
ghost use Rattle.scenario.specs.Models.{call_model};
ghost use Rattle.scenario.specs.Statements.{bus_read, bus_transfer, transfer_in_place};
ghost use Rattle.bench.specs.Calls.{Done};

use scenario::statement::Call;
use std::alloc::{AllocError, Global};
use wire::calls::{exchange_in_place, read, send, transfer};
use wire::line::Line;

// What a place to read holds before the call.
pub const BLANK: u8 = 0xAA;

fn bus_read<L: Line>(heap: Global, line: &mut L, n: usize) -> Result<Vec<u8>, AllocError>
    ensures done { Done (bus_read n) (L.answers line.old) result (λ v. v.items) (L.answers line.new) }
{
    let mut buf = vec![in heap; BLANK; n]?;
    read(line, buf.as_mut_slice());
    Ok(buf)
}

fn bus_transfer<L: Line>(
    heap: Global,
    line: &mut L,
    n: usize,
    bytes: &[u8],
) -> Result<Vec<u8>, AllocError>
    ensures done { Done (bus_transfer n bytes.now) (L.answers line.old) result (λ v. v.items) (L.answers line.new) }
{
    let mut buf = vec![in heap; BLANK; n]?;
    transfer(line, buf.as_mut_slice(), bytes);
    Ok(buf)
}

fn transfer_in_place<L: Line>(
    heap: Global,
    line: &mut L,
    bytes: &[u8],
) -> Result<Vec<u8>, AllocError>
    ensures done { Done (transfer_in_place bytes.now) (L.answers line.old) result (λ v. v.items) (L.answers line.new) }
{
    let mut buf = bytes.to_vec(heap)?;
    exchange_in_place(line, buf.as_mut_slice());
    Ok(buf)
}

// The places of a call, as they are after it. Where there is no memory for them, nothing is sent.
pub fn perform<L: Line>(heap: Global, line: &mut L, call: &Call) -> Result<Vec<u8>, AllocError>
    ensures done { Done (call_model call.now) (L.answers line.old) result (λ v. v.items) (L.answers line.new) }
{
    match call {
        Call::BusWrite(bytes) => {
            send(line, bytes.as_slice());
            Ok(Vec::new(heap))
        }
        Call::BusRead(n) => bus_read(heap, line, *n),
        Call::BusTransfer(n, bytes) => bus_transfer(heap, line, *n, bytes.as_slice()),
        Call::TransferInPlace(bytes) => transfer_in_place(heap, line, bytes.as_slice()),
        Call::Flush | Call::Clock(_) => Ok(Vec::new(heap)),
    }
}
