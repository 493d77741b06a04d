// Decimal numbers.
ghost use Rattle.std.specs.Prelude.{◌≡◌};
ghost use Rattle.operands.specs.Numerals.{one_more, reads, below};

// A number with one more digit.
fn one_more(value: u64, byte: u8) -> Option<u64>
    ensures { result ≡ one_more value byte }
{
    if !byte.is_ascii_digit() {
        return None;
    }
    value.checked_mul(10)?.checked_add(u64::from(byte - b'0'))
}

// The number that a word of decimal digits reads as, where 64 bits hold it. The library's parsing of text also takes a sign.
pub fn number(word: &[u8]) -> Option<u64>
    ensures { result ≡ reads word.now }
{
    if word.is_empty() {
        return None;
    }
    let mut value: u64 = 0;
    for byte in word {
        value = one_more(value, *byte)?;
    }
    Some(value)
}

// The number that a word reads as, where 8 bits hold it. One function for both widths is no plainer: its bound and its clause
// would be longer than the two bodies.
pub fn number8(word: &[u8]) -> Option<u8>
    ensures { result ≡ below 256 (reads word.now) }
{
    u8::try_from(number(word)?).ok()
}

// The number that a word reads as, where 32 bits hold it.
pub fn number32(word: &[u8]) -> Option<u32>
    ensures { result ≡ below 4294967296 (reads word.now) }
{
    u32::try_from(number(word)?).ok()
}
