//! The date and the time of day of a second, in UTC, as a text.

ghost use Rattle.std.specs.Prelude.{◌≡◌, ◌↔◌, ◌<◌, ◌/◌, ◌%◌, ◌++◌, pos, OnOk, IfOk, IfSome, IsSome, string_bytes};
ghost use Rattle.jiff_core.specs.Date.{epoch_day};
ghost use Rattle.jiff_core.specs.Time.{time_seconds};
ghost use Rattle.job_times.specs.MomentTexts.{IsMomentText, four_digits, two_digits};
ghost use Rattle.job_times.specs.Moments.{IsMomentOf, date_text, moment_text, time_text};

use jiff_core::civil::{Date, Time};
use std::alloc::{AllocError, Global};
use std::time::Clock;

/// How many seconds a day has.
const DAY: u64 = 86_400;

/// The day on which the second lies that is so many after 1970 began, if its year has four digits.
fn date_of(seconds: u64) -> Option<Date>
    ensures known { IsSome result ↔ (seconds < 253_402_300_800) }
    ensures day { IfSome result (λ date. epoch_day date ≡ pos (seconds / 86_400)) }
{
    Date::from_unix_epoch_day((seconds / DAY) as i64).ok()
}

/// The time of day of that second.
fn time_of(seconds: u64) -> Time
    ensures { time_seconds result ≡ seconds % 86_400 }
{
    Time::from_second((seconds % DAY) as u32, 0)
}

/// Appends a number below 100 in two digits.
fn push_two(text: &mut String, number: u16) -> Result<(), AllocError>
    ensures { OnOk result (string_bytes text.new ≡ string_bytes text.old ++ two_digits number) }
{
    let tens = number / 10;
    let ones = number % 10;
    write!(text, "{tens}{ones}")
}

/// Appends a year below 10,000 in four digits.
fn push_year(text: &mut String, year: u16) -> Result<(), AllocError>
    ensures { OnOk result (string_bytes text.new ≡ string_bytes text.old ++ four_digits year) }
{
    push_two(text, year / 100)?;
    push_two(text, year % 100)
}

/// Appends a date whose year is not negative.
fn push_date(text: &mut String, date: Date) -> Result<(), AllocError>
    ensures { OnOk result (string_bytes text.new ≡ string_bytes text.old ++ date_text date) }
{
    push_year(text, date.year.unsigned_abs())?;
    text.push_str("-")?;
    push_two(text, u16::from(date.month))?;
    text.push_str("-")?;
    push_two(text, u16::from(date.day))
}

/// Appends a time of day to the second.
fn push_time(text: &mut String, time: Time) -> Result<(), AllocError>
    ensures { OnOk result (string_bytes text.new ≡ string_bytes text.old ++ time_text time) }
{
    push_two(text, u16::from(time.hour))?;
    text.push_str(":")?;
    push_two(text, u16::from(time.minute))?;
    text.push_str(":")?;
    push_two(text, u16::from(time.second))
}

/// The text of a date and a time of day.
fn moment_text(alloc: Global, date: Date, time: Time) -> Result<String, AllocError>
    ensures { IfOk result (λ text. string_bytes text ≡ moment_text date time) }
{
    let mut text = String::new(alloc);
    push_date(&mut text, date)?;
    text.push_str("T")?;
    push_time(&mut text, time)?;
    Ok(text)
}

/// The text of the second that is so many after 1970 began; none from the year 10000 on, or for want of memory.
fn moment_of(alloc: Global, seconds: u64) -> Option<String>
    ensures { IfSome result (λ text. IsMomentOf seconds (string_bytes text)) }
{
    let date = date_of(seconds)?;
    moment_text(alloc, date, time_of(seconds)).ok()
}

/// What the clock shows now as date and time of day in UTC, to the second, as `2026-11-28T05:04:59`;
/// nothing if it cannot be read, if it is past the year 9999, or for want of memory.
pub fn moment_by<C: Clock>(alloc: Global, clock: &C) -> Option<String>
    ensures { IfSome result (λ text. IsMomentText (string_bytes text)) }
{
    let time = clock.since_1970().ok()?;
    moment_of(alloc, time.as_secs())
}
