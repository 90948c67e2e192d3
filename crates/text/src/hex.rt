// Hexadecimal digits, two to a byte.
ghost use Rattle.std.specs.Prelude.{◌≡◌, ◌<◌, ◌/◌, ◌%◌, is_some};
ghost use Rattle.std.specs.List.{list_all};
ghost use Rattle.text.specs.Hex.{nibble_read, pair_read, Unhexed, glyph_of};

// The value of a digit of either case.
fn nibble(digit: u8) -> Option<u8>
    ensures { result ≡ nibble_read digit }
{
    match digit {
        b'0'..=b'9' => Some(digit - b'0'),
        b'A'..=b'F' => Some(digit - b'A' + 10),
        b'a'..=b'f' => Some(digit - b'a' + 10),
        _ => None,
    }
}

// The byte of two digits.
fn byte(pair: &[u8; 2]) -> Option<u8>
    ensures { result ≡ pair_read pair.now }
{
    Some(nibble(pair[0])? * 16 + nibble(pair[1])?)
}

fn are_bytes(pairs: &[[u8; 2]]) -> bool
    ensures { result ≡ list_all (λ p. is_some (pair_read p)) pairs.now }
{
    pairs.iter().all(|pair| byte(pair).is_some())
}

// The bytes of pairs of digits, into the front of out, and how many. Where it is not pairs of digits alone, or out has no room, nothing
// is written.
pub(crate) fn unhex(digits: &[u8], out: &mut [u8]) -> Option<usize>
    ensures { Unhexed digits.now out.old result out.new }
{
    let (pairs, odd) = digits.as_chunks::<2>();
    if !odd.is_empty() || pairs.len() > out.len() {
        return None;
    }
    if !are_bytes(pairs) {
        return None;
    }
    // By index: each byte goes to its own place of out.
    for (i, pair) in pairs.iter().enumerate() {
        out[i] = byte(pair)?;
    }
    Some(pairs.len())
}

// The digit of a value, in lower case.
fn glyph(value: u8) -> u8
    requires { value < 16 }
    ensures { result ≡ glyph_of value }
{
    if value < 10 {
        b'0' + value
    } else {
        b'a' - 10 + value
    }
}

// A byte's first digit.
pub(crate) fn high(byte: u8) -> u8
    ensures { result ≡ glyph_of (byte / 16) }
{
    glyph(byte / 16)
}

// A byte's second digit.
pub(crate) fn low(byte: u8) -> u8
    ensures { result ≡ glyph_of (byte % 16) }
{
    glyph(byte % 16)
}
