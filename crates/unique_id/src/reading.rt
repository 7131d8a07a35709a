//! Reads the segments of a text, from left to right.

ghost use Rattle.std.specs.Prelude.{◌≡◌, ◌≢◌, ◌≤◌, ◌+◌, ◌==◌, not, List, [], ◌∷◌, Some, IfOk, IfErr, Ok, Err};
ghost use Rattle.std.specs.Prelude.{MatchResult, length, option_map};
ghost use Rattle.std.specs.List.{prefix_len};
ghost use Rattle.unique_id.specs.Answers.{Answers};
ghost use Rattle.unique_id.specs.Reading.{after, unescaped, part_len, checked, part_at, segment_at, segments_at};
ghost use Rattle.unique_id.specs.Reads.{IsReadOf, pieces_of, left_len};
ghost use Rattle.unique_id.specs.declared.unique_id.Segment.{Segment};

use crate::decoded::Decoded;
use crate::escape::item_of;
use crate::fault::UidFault;
use crate::part::Part;
use crate::read::Read;
use std::alloc::Global;

/// What follows the byte that a text has to begin with.
fn after(byte: u8, text: &[u8]) -> Option<&[u8]>
    ensures { option_map (λ rest. rest.now) result ≡ after byte text.now }
{
    match text {
        [first, rest @ ..] if *first == byte => Some(rest),
        _ => None,
    }
}

/// How many bytes stand before the first of this value.
fn len_before(byte: u8, text: &[u8]) -> usize
    ensures { result ≡ prefix_len (λ b. not (b == byte)) text.now }
{
    text.iter().take_while(|b| **b != byte).count()
}

/// How many bytes stand before the next delimiter.
fn part_len(text: &[u8]) -> usize
    ensures { result ≡ part_len text.now }
{
    text.iter()
        .take_while(|byte| !matches!(**byte, b'[' | b']' | b':' | b'/'))
        .count()
}

/// The bytes that the part stands for that is written so at `place`.
fn unescaped(place: usize, written: &[u8]) -> Result<Decoded, UidFault>
    requires { place + length written.now ≤ 1024 }
    ensures read { Answers (λ bytes. bytes) result (unescaped [] place written.now) }
    ensures real { IfErr result (λ fault. fault ≢ UidFault.NoMemory) }
{
    let mut bytes = Decoded::new();
    let mut index = 0;
    while index < written.len() {
        match item_of(&written[index..]) {
            Some((byte, length)) => {
                bytes.push(byte);
                index += length;
            }
            None => return Err(UidFault::BadEscape(place + index)),
        }
    }
    Ok(bytes)
}

/// These bytes of a part that is written so at `place`, if they make a part.
fn checked(place: usize, written: &[u8], bytes: Decoded) -> Result<Decoded, UidFault>
    requires { place + length written.now ≤ 1024 }
    ensures read { Answers (λ bytes. bytes) result (checked place written.now bytes) }
    ensures real { IfErr result (λ fault. fault ≢ UidFault.NoMemory) }
{
    if bytes.as_slice().is_empty() {
        return Err(UidFault::EmptyPart(place + written.len()));
    }
    if !bytes.is_text() {
        return Err(UidFault::BadEscape(place + len_before(b'%', written)));
    }
    Ok(bytes)
}

/// The part that the text at `place` begins with, and what follows its end.
#[tactic(auto, unfolding(crate::specs::Reading::part_before))]
fn part_at(part: Part, place: usize, text: &[u8]) -> Result<(Decoded, &[u8]), UidFault>
    requires { place + length text.now ≤ 1024 }
    ensures read { Answers (λ part. (part.0, part.1.now)) result (part_at part place text.now) }
    ensures real { IfErr result (λ fault. fault ≢ UidFault.NoMemory) }
    ensures shorter { IfOk result (λ part. length part.1.now ≤ length text.now) }
{
    let length = part_len(text);
    let written = &text[..length];
    let bytes = unescaped(place, written)?;
    let Some(rest) = after(part.end(), &text[length..]) else {
        return Err(part.unended(place + written.len()));
    };
    let named = checked(place, written, bytes)?;
    Ok((named, rest))
}

/// The kind and the value of the segment that stands at `place`, where the text goes to the next
/// slash or the end.
#[tactic(auto, unfolding(crate::specs::Reading::segment_at))]
fn segment_at(place: usize, text: &[u8]) -> Result<(Decoded, Decoded), UidFault>
    requires { place + length text.now ≤ 1024 }
    ensures read { Answers (λ parts. record { kind = parts.0; value = parts.1 }) result (segment_at place text.now) }
    ensures real { IfErr result (λ fault. fault ≢ UidFault.NoMemory) }
{
    let Some(inside) = after(b'[', text) else {
        return Err(UidFault::NoBracket(place));
    };
    let (kind, rest) = part_at(Part::Kind, place + 1, inside)?;
    let value_place = place + (text.len() - rest.len());
    let (value, rest) = part_at(Part::Value, value_place, rest)?;
    if !rest.is_empty() {
        return Err(UidFault::NoBracket(place + (text.len() - rest.len())));
    }
    Ok((kind, value))
}

/// What stands before the first slash, and what follows that.
fn first_piece(text: &[u8]) -> (&[u8], Option<&[u8]>)
    ensures pieces { pieces_of (Some text.now) ≡ result.0.now ∷ pieces_of (option_map (λ rest. rest.now) result.1) }
    ensures len { length result.0.now + left_len (option_map (λ rest. rest.now) result.1) ≡ length text.now }
{
    let length = len_before(b'/', text);
    let piece = &text[..length];
    (piece, after(b'/', &text[length..]))
}

/// The segments of a text, one between each two slashes. Want of memory doesn't end the reading.
pub fn read(alloc: Global, text: &[u8]) -> Result<Read, UidFault>
    requires { length text.now ≤ 1024 }
    ensures read { MatchResult result (λ read. (segments : List Segment) × IsReadOf read segments
        × (segments_at [] 0 (pieces_of (Some text.now)) ≡ Ok segments))
        (λ fault. segments_at [] 0 (pieces_of (Some text.now)) ≡ Err fault) }
    ensures real { IfErr result (λ fault. fault ≢ UidFault.NoMemory) }
{
    let mut read = Read::new(alloc);
    let mut left = Some(text);
    let mut place = 0;
    while let Some(text) = left {
        let (piece, rest) = first_piece(text);
        let (kind, value) = segment_at(place, piece)?;
        read = read.with(alloc, &kind, &value);
        place += piece.len() + 1;
        left = rest;
    }
    Ok(read)
}
