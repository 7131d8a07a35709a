//! The items of a part: a byte as it is, or a percent escape.

ghost use Rattle.std.specs.Prelude.{◌≡◌, ◌<◌, ◌≤◌, IfSome, length};
ghost use Rattle.unique_id.specs.Escapes.{digit_of, byte_of};
ghost use Rattle.unique_id.specs.Reading.{item_of};

/// The value of a hexadecimal digit.
fn digit_of(byte: u8) -> Option<u8>
    ensures value { result ≡ digit_of byte }
    ensures small { IfSome result (λ digit. digit < 16) }
{
    match byte {
        b'0'..=b'9' => Some(byte - b'0'),
        b'A'..=b'F' => Some(byte - 55),
        b'a'..=b'f' => Some(byte - 87),
        _ => None,
    }
}

/// The byte that two hexadecimal digits stand for.
fn byte_of(high: u8, low: u8) -> Option<u8>
    ensures { result ≡ byte_of high low }
{
    let high = digit_of(high)?;
    let low = digit_of(low)?;
    Some(16 * high + low)
}

/// The byte that the first item stands for, and how many bytes the item takes.
pub fn item_of(text: &[u8]) -> Option<(u8, usize)>
    ensures item { result ≡ item_of text.now }
    ensures some { IfSome result (λ item. 0 < item.1) }
    ensures within { IfSome result (λ item. item.1 ≤ length text.now) }
{
    match text {
        [b'%', high, low, ..] => Some((byte_of(*high, *low)?, 3)),
        [b'%', ..] | [] => None,
        [byte, ..] => Some((*byte, 1)),
    }
}
