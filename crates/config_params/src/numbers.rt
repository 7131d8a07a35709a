//! The numbers of configuration values.

ghost use Rattle.std.specs.Prelude.{◌≡◌, ◌≤◌, ◌<◌, ◌*◌, ◌^◌, ◌-◌, length, if◌then◌else◌, None, Some, IfSome, IsTrue};
ghost use Rattle.std.specs.Char.{is_ascii_digit};
ghost use Rattle.std.specs.List.{list_all};
ghost use Rattle.std.specs.Str.Parse.{digits_value};
ghost use Rattle.config_params.specs.Numbers.{is_number, parallelism_in, limit_in, holders_in, factor_in};

/// The most milliseconds from which on a test is slow, which are a day.
const LONGEST_LIMIT: u32 = 86_400_000;

/// How many nodes may hold a lock at once at most, if that is limited: as many as there are workers.
const MOST_HOLDERS: u32 = 64;

/// Whether each byte is a digit.
fn are_digits(bytes: &[u8]) -> bool
    ensures { result ≡ list_all is_ascii_digit bytes.now }
{
    bytes.iter().all(|byte| byte.is_ascii_digit())
}

/// The number that a text is, of one digit to so many.
fn number_in(most: usize, text: &str) -> Option<u32>
    requires { most ≤ 9 }
    ensures value { result ≡ (if is_number most text.now then Some (digits_value 10 text.now) else None) }
    ensures small { IfSome result (λ n. n < 10 ^ most) }
{
    let digits = text.as_bytes();
    if digits.is_empty() || digits.len() > most || !are_digits(digits) {
        return None;
    }
    text.parse::<u32>().ok()
}

/// The number of workers that a text gives: 1 to 9 digits, not zero.
pub(crate) fn parallelism_in(text: &str) -> Option<u32>
    ensures { result ≡ parallelism_in text.now }
{
    number_in(9, text).filter(|number| *number > 0)
}

/// The milliseconds that a text gives: 1 to 8 digits, not zero, at most 86,400,000.
pub(crate) fn limit_in(text: &str) -> Option<u32>
    ensures { result ≡ limit_in text.now }
{
    let limit = number_in(8, text)?;
    if limit == 0 || limit > LONGEST_LIMIT {
        return None;
    }
    Some(limit)
}

/// How many holders of a lock a text allows: 1 or 2 digits, not zero, at most 64.
pub fn holders_in(text: &str) -> Option<u8>
    ensures { result ≡ holders_in text.now }
{
    let holders = number_in(2, text)?;
    if holders == 0 || holders > MOST_HOLDERS {
        return None;
    }
    Some(holders as u8)
}

/// The ten-thousandths that some decimals are.
fn ten_thousandths(decimals: &str) -> Option<u32>
    ensures value { result ≡ (if is_number 4 decimals.now then Some
        (digits_value 10 decimals.now * 10 ^ (4 - length decimals.now)) else None) }
    ensures small { IfSome result (λ n. n < 100000000) }
{
    let number = number_in(4, decimals)?;
    let scale = match decimals.len() {
        1 => 1000,
        2 => 100,
        3 => 10,
        _ => 1,
    };
    Some(number * scale)
}

/// The factor that a text gives, in ten-thousandths: 1 to 6 digits, and then perhaps a point and 1
/// to 4 digits, not zero.
pub(crate) fn factor_in(text: &str) -> Option<u64>
    ensures { result ≡ factor_in text.now }
{
    let factor = match text.split_once('.') {
        Some((whole, decimals)) => {
            let whole = number_in(6, whole)?;
            whole as u64 * 10_000 + ten_thousandths(decimals)? as u64
        }
        None => number_in(6, text)? as u64 * 10_000,
    };
    if factor > 0 { Some(factor) } else { None }
}
