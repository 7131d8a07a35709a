//! A line, read from a reader.

ghost use Rattle.std.specs.Prelude.{◌≡◌, ◌+◌, ◌-◌, ◌<◌, ◌≤◌, ◌⊎◌, ◌∷◌, ◌++◌, [], ℕ, List, true, false, IfOk, IfErr, OnErr, length, take, drop};
ghost use Rattle.std.specs.Io.KnownBytes.{Consumes, IsAtEnd, Keeps};
ghost use Rattle.host_bodies.specs.Lines.{has_feed, IsCutOff, IsLine};
ghost use Rattle.host_bodies.specs.declared.silence.Silence.TheVariants.{Ended, Unread};

use crate::silence::Silence;
use std::io::Read;

/// What the bytes that were read last do to a line.
enum Tail {
    /// It goes on.
    Open,
    /// They end it.
    Whole,
    /// They go on behind its end.
    Early,
}

/// What these bytes do to a line.
fn tail_of(bytes: &[u8]) -> Tail
    ensures open { result ≡ Tail.Open → has_feed bytes.now ≡ false }
    ensures whole { result ≡ Tail.Whole → (0 < length bytes.now)
        × (has_feed (take (length bytes.now - 1) bytes.now) ≡ false)
        × (bytes.now ≡ take (length bytes.now - 1) bytes.now ++ 10 ∷ []) }
    ensures early { result ≡ Tail.Early → (0 < length bytes.now)
        × (has_feed (take (length bytes.now - 1) bytes.now) ≡ true) }
{
    match bytes.split_last() {
        None => Tail::Open,
        Some((last, front)) => {
            if front.contains(&b'\n') {
                Tail::Early
            } else if *last == b'\n' {
                Tail::Whole
            } else {
                Tail::Open
            }
        }
    }
}

/// Reads once, into the room from this place on.
fn read_more<R: Read>(reader: &mut R, room: &mut [u8], at: usize) -> Result<usize, Silence>
    requires { at < length room.old }
    ensures same { length room.new ≡ length room.old }
    ensures front { take at room.new ≡ take at room.old }
    ensures fits { IfOk result (λ count. (0 < count) × (at + count ≤ length room.new)) }
    ensures ok { IfOk result (λ count. Consumes (R.remaining reader.old) (R.remaining reader.new)
        (take count (drop at room.new))) }
    ensures err { OnErr result (Keeps (R.remaining reader.old) (R.remaining reader.new)) }
    ensures why { IfErr result (λ why. ((why ≡ Ended) × IsAtEnd (R.remaining reader.new)) ⊎ (why ≡ Unread)) }
{
    match reader.read(&mut room[at..]) {
        Ok(0) => Err(Silence::Ended),
        Ok(count) => Ok(count),
        Err(_) => Err(Silence::Unread),
    }
}

/// Reads a line into the room, and the line feed behind it, and says how long it is. It stops where the room is full, and
/// where the reader gives more than the line at once.
pub(crate) fn read_line<R: Read>(reader: &mut R, room: &mut [u8]) -> Result<usize, Silence>
    ensures same { length room.new ≡ length room.old }
    ensures line { IfOk result (λ len. IsLine len room.new (R.remaining reader.old) (R.remaining reader.new)) }
    ensures cut_off { IfErr result (λ why. IsCutOff why (length room.old) (R.remaining reader.old)
        (R.remaining reader.new)) }
{
    let mut at = 0;
    while at < room.len() {
        let count = read_more(reader, room, at)?;
        let end = at + count;
        match tail_of(&room[at..end]) {
            Tail::Open => at = end,
            Tail::Whole => return Ok(end - 1),
            Tail::Early => return Err(Silence::Unasked),
        }
    }
    Err(Silence::TooLong)
}
