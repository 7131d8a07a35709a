//! A unique id: its segments, with their canonical text beside them.

ghost use Rattle.std.specs.Prelude.{◌≡◌, ◌≢◌, ◌<◌, ◌≤◌, ◌↔◌, IsTrue, Some, None, IfOk, IfErr, IsOk, [], ◌∷◌, ◌++◌};
ghost use Rattle.std.specs.Arc.{arc_value};
ghost use Rattle.std.specs.Prelude.{List, Ok, ℕ, drop, length, All, string_bytes};
ghost use Rattle.unique_id.specs.declared.unique_id.Segment.{Segment};
ghost use Rattle.unique_id.specs.Grammar.{IsId, IsWithinLimits};
ghost use Rattle.unique_id.specs.Answers.{Gives};
ghost use Rattle.unique_id.specs.Faults.{place_of};
ghost use Rattle.unique_id.specs.Places.{StopsAt, width};
ghost use Rattle.unique_id.specs.Prefixes.{IsPrefix};
ghost use Rattle.unique_id.specs.Reading.{id_of};
ghost use Rattle.unique_id.specs.Segments.{IsWhole, IsText};
ghost use Rattle.unique_id.specs.Spelling.{refusal, spelled_segment, spelling};

use crate::both_of::both;
use crate::canonical_text::CanonicalText;
use crate::fault::UidFault;
use crate::path::Path;
use crate::read::Read;
use crate::reading::read;
use crate::spelling::{push_segment, push_segment_up_to, segment_len};
use crate::text::Text;
use std::alloc::{AllocError, Global};
use std::fmt;
use std::marker::Model;
use std::sync::Arc;

/// The greatest number of segments.
const MOST_SEGMENTS: usize = 64;

/// The greatest length of the canonical text, in bytes.
const LONGEST_TEXT: usize = 1024;

/// The kind and the value of a segment.
#[derive(Drop)]
pub struct Parts {
    pub kind: Text,
    pub value: Text,
}

/// A segment, and the text of the id that ends with it, which stand in one block of memory.
#[derive(Drop)]
struct Named {
    parts: Parts,
    // empty where the segment was made for no id
    text: CanonicalText,
}

/// One step down the tree: the kind of the node there, and what tells it from its siblings. All ids
/// that lead through it share its parts.
pub struct Segment {
    named: Arc<Named>,
}

impl Drop for Segment {
    fn drop(self) {
        let Segment { named: _ } = self;
    }
}

impl Model for Segment {
    ghost use Rattle.std.specs.Arc.{arc_value};
    ghost use Rattle.unique_id.specs.declared.unique_id.Parts.{Parts};

    ghost Value = { Parts };

    ghost view = { λ s. (arc_value s.named).parts };
}

/// The parts of a segment, with the text of the id that ends with it.
fn block_of(
    alloc: Global,
    kind: &str,
    value: &str,
    text: CanonicalText,
) -> Result<Arc<Named>, AllocError>
    ensures { IfOk result (λ named. arc_value named ≡ record
        { parts = record { kind = kind.now; value = value.now }; text = text }) }
{
    let parts = both(Text::new(alloc, kind), Text::new(alloc, value));
    let (parts, text) = both(parts, Ok(text))?;
    let (kind, value) = parts;
    let parts = Parts { kind, value };
    Ok(Arc::new(alloc, Named { parts, text })?)
}

impl Segment {
    /// The segment of this kind and this value.
    pub fn new(alloc: Global, kind: &str, value: &str) -> Result<Segment, AllocError>
        ensures { IfOk result (λ s. s ≡ record { kind = kind.now; value = value.now }) }
    {
        Ok(Segment {
            named: block_of(alloc, kind, value, CanonicalText::empty())?,
        })
    }

    /// The kind of the node.
    pub fn kind(&self) -> &str
        ensures { result.now ≡ self.now.kind }
    {
        self.named.parts.kind.as_str()
    }

    /// What tells the node from its siblings.
    pub fn value(&self) -> &str
        ensures { result.now ≡ self.now.value }
    {
        self.named.parts.value.as_str()
    }

    /// Whether both have the same kind and the same value.
    fn same(&self, other: &Segment) -> bool
        ensures { IsTrue result ↔ (self.now ≡ other.now) }
    {
        self.kind() == other.kind() && self.value() == other.value()
    }

    /// A copy, which shares its parts with this segment. An `Err` says that no more copies can be counted.
    pub fn copy(&self) -> Result<Segment, AllocError>
        ensures { IfOk result (λ s. s ≡ self.now) }
    {
        Ok(Segment {
            named: Arc::try_clone(&self.named)?,
        })
    }
}

/// Where a node stands: one segment for each step down the tree.
pub struct UniqueId {
    path: Path,
    // holds the text; mostly it is the block of the last segment
    named: Arc<Named>,
}

impl Drop for UniqueId {
    fn drop(self) {
        let UniqueId { path: _, named: _ } = self;
    }
}

impl Model for UniqueId {
    ghost use Rattle.std.specs.Prelude.{List};
    ghost use Rattle.unique_id.specs.declared.unique_id.Segment.{Segment};

    ghost Value = { List Segment };

    ghost use Rattle.unique_id.specs.Fields.{IsSound};

    ghost view = { λ u. u.path };

    ghost invariant = { IsSound };
}

impl fmt::Debug for UniqueId {
    fn fmt<W: fmt::Write>(&self, f: &mut fmt::Formatter<W>) -> fmt::Result {
        fmt::Debug::fmt(self.text(), f)
    }
}

impl UniqueId {
    /// The canonical text, at most 1,024 bytes.
    pub fn text(&self) -> &str
        ensures spelled { result.now ≡ spelling self.now }
        ensures short { length result.now ≤ 1024 }
    {
        self.named.text.as_str()
    }

    /// The segments, from the root down: one to 64.
    pub fn segments(&self) -> &[Segment]
        ensures items { result.now ≡ self.now }
        ensures some { 0 < length self.now }
        ensures few { length self.now ≤ 64 }
        ensures whole { All IsWhole self.now }
        ensures texts { All IsText self.now }
    {
        self.path.as_slice()
    }

    /// The id with this one segment; an empty part is refusal 5, a text that gets too long refusal 6.
    pub fn of(alloc: Global, kind: &str, value: &str) -> Result<UniqueId, UidFault>
        ensures ok { IfOk result (λ id. id ≡ record { kind = kind.now; value = value.now } ∷ []) }
        ensures accepted { IfOk result (λ _. refusal [] kind.now value.now ≡ None) }
        ensures refused { IfErr result (λ fault. fault ≢ UidFault.NoMemory → refusal [] kind.now value.now ≡ Some
            fault) }
        ensures no_memory { IfErr result (λ fault. fault ≡ UidFault.NoMemory → refusal [] kind.now value.now ≡ None) }
    {
        grown(alloc, &[], "", kind, value)
    }

    /// This id with one more segment; an empty part is refusal 5, a 65th segment or a text that
    /// gets too long refusal 6.
    pub fn append(&self, alloc: Global, kind: &str, value: &str) -> Result<UniqueId, UidFault>
        ensures ok { IfOk result (λ id. id ≡ self.now ++ record { kind = kind.now; value = value.now } ∷ []) }
        ensures accepted { IfOk result (λ _. refusal self.now kind.now value.now ≡ None) }
        ensures refused { IfErr result (λ fault. fault ≢ UidFault.NoMemory →
            refusal self.now kind.now value.now ≡ Some fault) }
        ensures no_memory { IfErr result
            (λ fault. fault ≡ UidFault.NoMemory → refusal self.now kind.now value.now ≡ None) }
    {
        grown(alloc, self.segments(), self.text(), kind, value)
    }

    /// The id that a text spells. Any byte of a part may be written as a percent escape and, but
    /// for `%` and the delimiters `[`, `]`, `:` and `/`, as it is. The text is read from left to
    /// right; the first fault counts.
    pub fn parse(alloc: Global, text: &str) -> Result<UniqueId, UidFault>
        ensures exact { Gives UidFault.NoMemory (λ id. id) result (id_of text.now) }
        // Want of memory stands in place of no fault.
        ensures no_memory { IfErr result (λ fault. fault ≡ UidFault.NoMemory → IsOk (id_of text.now)) }
        // A fault with a place stands where the text stops being the beginning of an id.
        ensures placed { IfErr result (λ fault. (place : ℕ) → place_of fault ≡ Some place →
            StopsAt text.now place (width fault (drop place text.now))) }
        // What is answered is written in the format, and what is written in it is answered.
        ensures parsed { IfOk result (λ id. IsId text.now id × IsWithinLimits text.now id) }
        ensures parses { (segments : List Segment) → IsId text.now segments → IsWithinLimits text.now segments →
            Gives UidFault.NoMemory (λ id. id) result (Ok segments) }
        ensures reads_back { (segments : List Segment) → 0 < length segments → length segments ≤ 64 →
            All IsWhole segments → All IsText segments → length text.now ≤ 1024 → text.now ≡ spelling segments →
            Gives UidFault.NoMemory (λ id. id) result (Ok segments) }
    {
        id_of(alloc, text)
    }

    /// Whether the other id is this one, or stands below it.
    pub fn is_prefix_of(&self, other: &UniqueId) -> bool
        ensures { IsTrue result ↔ IsPrefix self.now other.now }
    {
        let segments = self.segments();
        let others = other.segments();
        if segments.len() > others.len() {
            return false;
        }
        for index in 0..segments.len() {
            if !segments[index].same(&others[index]) {
                return false;
            }
        }
        true
    }

    /// Whether both have the same segments.
    pub fn same(&self, other: &UniqueId) -> bool
        ensures { IsTrue result ↔ (self.now ≡ other.now) }
    {
        self.text() == other.text()
    }

    /// A copy, which shares the segments and the text with this id.
    pub fn copy(&self, alloc: Global) -> Result<UniqueId, AllocError>
        ensures { IfOk result (λ id. id ≡ self.now) }
    {
        let Some((last, front)) = self.segments().split_last() else {
            unreachable!()
        };
        let path = Path::longer(alloc, front, last.copy()?);
        let (path, named) = both(path, Arc::try_clone(&self.named))?;
        Ok(UniqueId { path, named })
    }
}

/// How long the spelling of `segments`, which is `text`, gets by one more segment, or what refuses that.
fn longer_len(segments: &[Segment], text: &str, kind: &str, value: &str) -> Result<usize, UidFault>
    requires spelled { text.now ≡ spelling segments.now }
    requires short { length text.now ≤ 1024 }
    ensures accepted { IfOk result (λ _. refusal segments.now kind.now value.now ≡ None) }
    ensures len { IfOk result (λ len. len ≡ length (spelling
        (segments.now ++ record { kind = kind.now; value = value.now } ∷ []))) }
    ensures refused { IfErr result (λ fault. refusal segments.now kind.now value.now ≡ Some fault) }
    ensures real { IfErr result (λ fault. fault ≢ UidFault.NoMemory) }
{
    if kind.is_empty() {
        return Err(UidFault::EmptyPart(0));
    }
    if value.is_empty() {
        return Err(UidFault::EmptyPart(1));
    }
    if segments.len() >= MOST_SEGMENTS || kind.len() > LONGEST_TEXT || value.len() > LONGEST_TEXT {
        return Err(UidFault::TooLong);
    }
    let slash = usize::from(!segments.is_empty());
    let len = text.len() + slash + segment_len(kind.as_bytes(), value.as_bytes());
    if len > LONGEST_TEXT {
        return Err(UidFault::TooLong);
    }
    Ok(len)
}

/// What the spelling of `segments`, which is `text`, and of one more begins with, in room for so many bytes.
fn spelled_before(
    alloc: Global,
    segments: &[Segment],
    text: &str,
    len: usize,
) -> Result<String, AllocError>
    requires { text.now ≡ spelling segments.now }
    ensures { IfOk result (λ front. (more : Segment) → string_bytes front ++ spelled_segment more.kind more.value
        ≡ spelling (segments.now ++ more ∷ [])) }
{
    let mut front = String::with_capacity(alloc, len)?;
    front.push_str(text)?;
    if !segments.is_empty() {
        front.push_str("/")?;
    }
    Ok(front)
}

/// The spelling of `segments`, which is `text`, and one more, which has so many bytes.
fn longer_text(
    alloc: Global,
    segments: &[Segment],
    text: &str,
    kind: &str,
    value: &str,
    len: usize,
) -> Result<String, AllocError>
    requires spelled { text.now ≡ spelling segments.now }
    requires len { len ≡ length (spelling (segments.now ++ record { kind = kind.now; value = value.now } ∷ [])) }
    requires short { len ≤ 1024 }
    ensures { IfOk result (λ longer. string_bytes longer ≡ spelling
        (segments.now ++ record { kind = kind.now; value = value.now } ∷ [])) }
{
    let mut longer = spelled_before(alloc, segments, text, len)?;
    push_segment_up_to(&mut longer, kind, value, len)?;
    Ok(longer)
}

/// The id that a text spells, read from left to right.
fn id_of(alloc: Global, text: &str) -> Result<UniqueId, UidFault>
    ensures exact { Gives UidFault.NoMemory (λ id. id) result (id_of text.now) }
    ensures no_memory { IfErr result (λ fault. fault ≡ UidFault.NoMemory → IsOk (id_of text.now)) }
{
    if text.is_empty() {
        return Err(UidFault::Empty);
    }
    if text.len() > LONGEST_TEXT {
        return Err(UidFault::TooLong);
    }
    let Read {
        segments,
        count,
        spelled: len,
    } = read(alloc, text.as_bytes())?;
    if count > MOST_SEGMENTS || len > LONGEST_TEXT {
        return Err(UidFault::TooLong);
    }
    let Some(segments) = segments else {
        return Err(UidFault::NoMemory);
    };
    let text = CanonicalText::of(spelled(alloc, segments.as_slice(), len)?);
    let named = block_of(alloc, "", "", text)?;
    Ok(UniqueId {
        path: Path::of(segments),
        named,
    })
}

/// The spelling of these segments, which has so many bytes.
fn spelled(alloc: Global, segments: &[Segment], len: usize) -> Result<String, AllocError>
    ensures { IfOk result (λ text. string_bytes text ≡ spelling segments.now) }
{
    let mut text = String::with_capacity(alloc, len)?;
    for (index, segment) in segments.iter().enumerate() {
        if index > 0 {
            text.push_str("/")?;
        }
        push_segment(&mut text, segment.kind(), segment.value())?;
    }
    Ok(text)
}

/// The id of `segments`, whose spelling is `text`, and one more.
fn grown(
    alloc: Global,
    segments: &[Segment],
    text: &str,
    kind: &str,
    value: &str,
) -> Result<UniqueId, UidFault>
    requires spelled { text.now ≡ spelling segments.now }
    requires short { length text.now ≤ 1024 }
    requires whole { All IsWhole segments.now }
    requires texts { All IsText segments.now }
    ensures ok { IfOk result (λ id. id ≡ segments.now ++ record { kind = kind.now; value = value.now } ∷ []) }
    ensures accepted { IfOk result (λ _. refusal segments.now kind.now value.now ≡ None) }
    ensures refused { IfErr result (λ fault. fault ≢ UidFault.NoMemory →
        refusal segments.now kind.now value.now ≡ Some fault) }
    ensures no_memory { IfErr result
        (λ fault. fault ≡ UidFault.NoMemory → refusal segments.now kind.now value.now ≡ None) }
{
    let len = longer_len(segments, text, kind, value)?;
    let text = longer_text(alloc, segments, text, kind, value, len)?;
    let named = block_of(alloc, kind, value, CanonicalText::of(text))?;
    let last = Segment {
        named: Arc::try_clone(&named)?,
    };
    Ok(UniqueId {
        path: Path::longer(alloc, segments, last)?,
        named,
    })
}
