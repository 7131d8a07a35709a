//! Numbers in decimal.

ghost use Rattle.std.specs.Prelude.{◌≡◌, ◌≤◌, IfSome};
ghost use Rattle.std.specs.Char.{is_ascii_digit};
ghost use Rattle.std.specs.List.{list_all};
ghost use Rattle.suite_words.specs.Numbers.{is_number, number_up_to};

/// Whether each byte is a digit.
fn are_digits(bytes: &[u8]) -> bool
    ensures { result ≡ list_all is_ascii_digit bytes.now }
{
    bytes.iter().all(|byte| byte.is_ascii_digit())
}

/// Whether a text is a number: one digit or more.
pub fn is_number(text: &str) -> bool
    ensures { result ≡ is_number text.now }
{
    let digits = text.as_bytes();
    !digits.is_empty() && are_digits(digits)
}

/// The number that a text of digits is in decimal, with zeros in front if there are any, up to `most`.
pub fn number_up_to(most: u32, text: &str) -> Option<u32>
    ensures value { result ≡ number_up_to most text.now }
    ensures within { IfSome result (λ number. number ≤ most) }
{
    if !is_number(text) {
        return None;
    }
    let Ok(number) = text.parse::<u32>() else {
        return None;
    };
    if number <= most { Some(number) } else { None }
}
