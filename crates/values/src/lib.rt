// What a single word gives, or what was expected in its place.

#![tactic(auto)]

ghost use Rattle.std.specs.Prelude.{◌≡◌, IfOk, vec_items, vec_len};
ghost use Rattle.faults.specs.Readings.{Reads};
ghost use Rattle.values.specs.Values.{bytes_of, count_of, exactly, number_of, slot_of};

use digits::digits::{read_bytes, read_number};
use faults::fault::{Expected, Refusal};
use std::alloc::Global;

const MOST_PLACES: u32 = 65_536;

pub fn number(word: &[u8]) -> Result<u32, Expected>
    ensures { result ≡ number_of word.now }
{
    read_number(word).ok_or(Expected::Number)
}

pub fn count(word: &[u8]) -> Result<usize, Expected>
    ensures { result ≡ count_of word.now }
{
    let count = read_number(word)
        .filter(|n| *n <= MOST_PLACES)
        .ok_or(Expected::Count)?;
    Ok(count as usize)
}

pub fn slot(word: &[u8]) -> Result<Option<u8>, Expected>
    ensures { result ≡ slot_of word.now }
{
    if word == b"none".as_slice() {
        return Ok(None);
    }
    let slot = read_number(word).filter(|n| *n < 8).ok_or(Expected::Slot)?;
    Ok(Some(slot as u8))
}

pub fn bytes(heap: Global, word: &[u8]) -> Result<Vec<u8>, Refusal>
    ensures { Reads vec_items result (bytes_of word.now) }
{
    read_bytes(heap, word)?.ok_or(Refusal::Unread(Expected::Hex))
}

pub fn exact_bytes(heap: Global, word: &[u8], len: usize) -> Result<Vec<u8>, Refusal>
    ensures reads { Reads vec_items result (exactly len word.now) }
    ensures len { IfOk result (λ v. vec_len v ≡ len) }
{
    read_bytes(heap, word)?
        .filter(|bytes| bytes.len() == len)
        .ok_or(Refusal::Unread(Expected::Bytes(len)))
}

pub fn byte_array<const N: usize>(heap: Global, word: &[u8]) -> Result<[u8; N], Refusal>
    ensures { Reads (λ bs. bs) result (exactly N word.now) }
{
    let bytes = exact_bytes(heap, word, N)?;
    let mut array = [0; N];
    array.copy_from_slice(&bytes);
    Ok(array)
}

#[cfg(test)]
mod tests {
    use super::*;

    #[test]
    fn byte_arrays_are_read(rt: HostRuntime) {
        let eight = byte_array::<8>(rt.alloc(), b"00010203fcFDfeFf");
        assert!(rt; eight.is_ok_and(|bytes| bytes == [0, 1, 2, 3, 252, 253, 254, 255]));
        let one = byte_array::<1>(rt.alloc(), b"a5");
        assert!(rt; one.is_ok_and(|bytes| bytes == [0xA5]));
    }
}
