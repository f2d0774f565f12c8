// Numbers and bytes, as words write them.
ghost use Rattle.std.specs.Prelude.{◌≡◌, ◌^◌, ◌<◌, ◌≤◌, [], ◌∷◌, length, IfOk, vec_items};
ghost use Rattle.std.specs.Option.{option_map};
ghost use Rattle.digits.specs.Digits.{added, below, hex_bytes, hex_digit, number, numeral, pairs};

use std::alloc::{AllocError, Global};

// By ranges of bytes: `char::to_digit` would go by way of a `char` and a `u32`.
pub fn hex_digit(b: u8) -> Option<u8>
    ensures { result ≡ hex_digit b }
{
    match b {
        b'0'..=b'9' => Some(b - b'0'),
        b'a'..=b'f' => Some(b - b'a' + 10),
        b'A'..=b'F' => Some(b - b'A' + 10),
        _ => None,
    }
}

fn add_digit(base: u32, value: u32, b: u8) -> Option<u32>
    ensures { result ≡ below (2 ^ 32) (added base value b) }
{
    let digit = hex_digit(b).map(u32::from).filter(|d| *d < base)?;
    value.checked_mul(base)?.checked_add(digit)
}

fn read_digits(base: u32, digits: &[u8]) -> Option<u32>
    requires { 0 < base }
    ensures { result ≡ numeral base digits.now }
{
    if digits.is_empty() {
        return None;
    }
    let mut value = 0;
    for b in digits {
        value = add_digit(base, value, *b)?;
    }
    Some(value)
}

// Two digits, the high one first.
fn read_pair(pair: &[u8]) -> Option<u8>
    ensures { 0 < length pair.now → length pair.now ≤ 2 → option_map (λ b. b ∷ []) result ≡ pairs pair.now }
{
    let &[high, low] = pair else {
        return None;
    };
    Some(16 * hex_digit(high)? + hex_digit(low)?)
}

pub fn read_number(word: &[u8]) -> Option<u32>
    ensures { result ≡ number word.now }
{
    match word {
        [b'0', b'x', digits @ ..] => read_digits(16, digits),
        _ => read_digits(10, word),
    }
}

// The bytes that a word of pairs of digits writes, or `None` where it is not such.
fn read_pairs(heap: Global, word: &[u8]) -> Result<Option<Vec<u8>>, AllocError>
    ensures { IfOk result (λ o. option_map vec_items o ≡ pairs word.now) }
{
    if word.len() % 2 != 0 {
        return Ok(None);
    }
    let mut bytes = Vec::new(heap);
    for pair in word.chunks_exact(2) {
        let Some(byte) = read_pair(pair) else {
            return Ok(None);
        };
        bytes.push(byte)?;
    }
    Ok(Some(bytes))
}

// The bytes that a word writes, or `None` where it is not bytes.
pub fn read_bytes(heap: Global, word: &[u8]) -> Result<Option<Vec<u8>>, AllocError>
    ensures { IfOk result (λ o. option_map vec_items o ≡ hex_bytes word.now) }
{
    match word {
        b"-" => Ok(Some(Vec::new(heap))),
        [] => Ok(None),
        _ => read_pairs(heap, word),
    }
}
