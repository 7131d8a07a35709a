//! What is wrong with a suite, and where.

use crate::attributes::{
    attribute_forms, first_trouble, key_of, known, lines_with, locks_in, looks_like_attribute,
};
use crate::bytes::{last_line, text_of};
use crate::foreign_words::{meant_by_attribute, meant_by_line, meant_by_verdict};
use crate::forms::{EXAMPLE, is_comment, is_of_other_form};
use crate::line::{
    after_verdicts, cut, indentation, line_words, push_choices, verdict_forms, where_stands,
    without_front,
};
use crate::lines::{deepest, line_at, may_stand, same_node};
use crate::marked::{push_marked, push_marked_rest};
use crate::place::Place;
use crate::sizes::{too_many_bytes, too_many_nodes};
use crate::whole_name::{has_verdict, push_whole_name};
use config_params::ParamsFault;
use descriptor::{NodeLimit, TreeFault};
use std::alloc::{AllocError, Global};
use suite_words::{LineWord, SuiteFault, Verdict, Word};

/// Where a verdict follows, a token with fewer bytes is more of a name, whatever known token is near.
const SHORTEST_NEAR: usize = 4;

/// One with fewer bytes may be more of a name, though a known token is near.
const SHORTEST_CERTAIN: usize = 6;

/// What the line of an engine has.
const OF_ENGINE: &str = "an engine has a name and tags, as #TAG, and nothing else";

/// Where a comment begins.
const COMMENT: &str = "a comment begins with # as the first character of its line";

/// Which limit the line of a node is over: that of its name, of a lock's key, of its locks, of its
/// reason, or else of its unique id.
fn limit_passed(alloc: Global, line: &str) -> &'static str {
    let (first, rest) = cut(without_front(line));
    let (name, more) = cut(rest);
    let behind = match Word::spelled(first) {
        Some(word) => first_trouble(alloc, word, more).0,
        None => more,
    };
    let (verdict, reason) = cut(behind);
    let (keys, longest) = locks_in(more.strip_suffix(behind).unwrap_or(more));
    if name.len() > 1_024 {
        "a name has at most 1,024 bytes"
    } else if longest > 1_024 {
        "the key of a lock has at most 1,024 bytes"
    } else if keys > 16 {
        "a node has locks on 16 keys at most"
    } else if matches!(Verdict::spelled(verdict), Some(Verdict::Disabled)) && reason.len() > 1_024 {
        "a reason has at most 1,024 bytes"
    } else {
        "a unique id has at most 64 levels and 1,024 bytes, and with this node its id has more"
    }
}

/// Whether a token that is near to a known one, on a line with this keyword and before this text, is
/// hardly more of a name: it is long, or a verdict has to stand on the line, and none follows.
fn is_misspelled(first: Word, word: &str, behind: &str) -> bool {
    word.len() >= SHORTEST_CERTAIN || !(matches!(first, Word::Class) || has_verdict(behind))
}

/// A line of a suite that is refused, and its number.
#[derive(Clone, Copy)]
struct Spot<'a> {
    line: &'a str,
    number: usize,
}

impl<'a> Spot<'a> {
    /// Appends this of the line, and the line with a mark below the place from which on it is this rest.
    fn push_said(
        self,
        alloc: Global,
        text: &mut String,
        rest: &str,
        said: &str,
    ) -> Result<(), AllocError> {
        let number = self.number;
        write!(text, "Line {number}: {said}\n")?;
        push_marked_rest(alloc, text, self.line, rest)
    }

    /// Appends what is said of the token with which the rest begins, which may not stand at this place,
    /// and by which this is meant, if that is known. Answers whether a token is offered in its place.
    fn push_unknown(
        self,
        alloc: Global,
        text: &mut String,
        rest: &str,
        place: Place<'_>,
        meant: Option<&str>,
    ) -> Result<bool, AllocError> {
        let number = self.number;
        write!(text, "Line {number}: ")?;
        let is_offered = place.push_said(alloc, text, key_of(cut(rest).0), meant)?;
        text.push_str("\n")?;
        push_marked_rest(alloc, text, self.line, rest)?;
        Ok(is_offered)
    }

    /// Appends that a name is one word, if this rest stands right behind that of the line.
    fn push_name(self, alloc: Global, text: &mut String, rest: &str) -> Result<(), AllocError> {
        let (name, more) = cut(cut(without_front(self.line)).1);
        if more.len() == rest.len() {
            push_whole_name(alloc, text, name, rest)?;
        }
        Ok(())
    }

    /// Appends what is wrong with a token on the line of an engine, with which this rest begins.
    fn push_on_engine(
        self,
        alloc: Global,
        text: &mut String,
        rest: &str,
    ) -> Result<(), AllocError> {
        let word = cut(rest).0;
        let is_attribute = looks_like_attribute(word);
        match meant_by_attribute(word) {
            Some(meant) if is_attribute => {
                let said = format!(in alloc; "{OF_ENGINE}; {meant}")?;
                return self.push_said(alloc, text, rest, said.as_str());
            }
            _ => self.push_said(alloc, text, rest, OF_ENGINE)?,
        }
        if is_attribute || Verdict::spelled(word).is_some() {
            return Ok(());
        }
        self.push_name(alloc, text, rest)
    }

    /// Appends what is wrong with what stands behind the verdict `pass`.
    fn push_behind_pass(
        self,
        alloc: Global,
        text: &mut String,
        behind: &str,
    ) -> Result<(), AllocError> {
        let said = if looks_like_attribute(cut(behind).0) || is_comment(behind) {
            "nothing stands behind pass: attributes stand before it, and a comment is a line of its own"
        } else {
            "nothing stands behind pass"
        };
        self.push_said(alloc, text, behind, said)
    }

    /// Appends what is wrong with an attribute that this line may not have, with which this rest begins.
    fn push_attribute(
        self,
        alloc: Global,
        text: &mut String,
        first: Word,
        rest: &str,
    ) -> Result<(), AllocError> {
        let word = cut(rest).0;
        let lines = lines_with(alloc, word)?;
        let forms = attribute_forms(alloc, first)?;
        let known = known(alloc, first)?;
        let meant = format!(in alloc; "it may stand on a line of {lines}")?;
        let otherwise = format!(in alloc; "; it may have {forms}")?;
        let place = Place {
            said: "this line may have no such attribute",
            right: "",
            known: known.as_slice(),
            otherwise: otherwise.as_str(),
        };
        let meant = if lines.is_empty() {
            meant_by_attribute(word)
        } else {
            Some(meant.as_str())
        };
        self.push_unknown(alloc, text, rest, place, meant)?;
        Ok(())
    }

    /// Appends what is wrong with a token in place of a verdict, with which this rest begins. Right behind
    /// a name it may be more of that.
    fn push_word(
        self,
        alloc: Global,
        text: &mut String,
        first: Word,
        rest: &str,
    ) -> Result<(), AllocError> {
        let (word, behind) = cut(rest);
        let verdicts = verdict_forms(alloc, Verdict::all().as_slice())?;
        let forms = attribute_forms(alloc, first)?;
        let known = if word.len() < SHORTEST_NEAR && has_verdict(behind) {
            Vec::new(alloc)
        } else {
            known(alloc, first)?
        };
        let right = format!(in alloc; ": {verdicts}")?;
        let otherwise = format!(in alloc; "; attributes are {forms}")?;
        let place = Place {
            said: "neither an attribute nor a verdict",
            right: right.as_str(),
            known: known.as_slice(),
            otherwise: otherwise.as_str(),
        };
        let meant = meant_by_attribute(word).or(meant_by_verdict(word));
        let is_offered = self.push_unknown(alloc, text, rest, place, meant)?;
        let is_certain = match meant {
            Some(_) => !has_verdict(behind),
            None => is_misspelled(first, word, behind),
        };
        if is_offered && is_certain {
            return Ok(());
        }
        self.push_name(alloc, text, rest)
    }

    /// Appends what is wrong with a verdict, with which this rest begins.
    fn push_verdict(
        self,
        alloc: Global,
        text: &mut String,
        first: Word,
        rest: &str,
    ) -> Result<(), AllocError> {
        let (word, behind) = cut(rest);
        if let Word::Engine = first {
            return self.push_on_engine(alloc, text, rest);
        }
        if let Some(Verdict::Pass) = Verdict::spelled(word) {
            return self.push_behind_pass(alloc, text, behind);
        }
        if looks_like_attribute(word) {
            return self.push_attribute(alloc, text, first, rest);
        }
        self.push_word(alloc, text, first, rest)
    }

    /// Appends what is wrong behind the keyword, which may stand there.
    fn push_behind(
        self,
        alloc: Global,
        text: &mut String,
        first: Word,
        rest: &str,
    ) -> Result<(), AllocError> {
        let (name, more) = cut(rest);
        if name.is_empty() {
            return self.push_said(alloc, text, "", "a name belongs behind the first word");
        }
        match first_trouble(alloc, first, more) {
            (left, Some(said)) => self.push_said(alloc, text, left, said),
            (left, None) => self.push_verdict(alloc, text, first, left),
        }
    }

    /// Appends what is wrong with an `after` line that stands in a class.
    fn push_after(self, alloc: Global, text: &mut String, rest: &str) -> Result<(), AllocError> {
        let (word, behind) = cut(rest);
        let verdict = Verdict::spelled(word);
        let is_whole = match verdict {
            Some(Verdict::Pass) => behind.is_empty(),
            Some(Verdict::Fail | Verdict::Abort) => true,
            Some(Verdict::Disabled) | None => false,
        };
        if is_whole {
            return self.push_said(
                alloc,
                text,
                without_front(self.line),
                "a class has one after line at most",
            );
        }
        if let Some(Verdict::Pass) = verdict {
            return self.push_behind_pass(alloc, text, behind);
        }
        let forms = verdict_forms(alloc, Verdict::of_bodies().as_slice())?;
        let said = format!(in alloc; "{forms} belongs there")?;
        let known = after_verdicts();
        let place = Place {
            said: said.as_str(),
            right: "",
            known: known.as_slice(),
            otherwise: "",
        };
        self.push_unknown(alloc, text, rest, place, meant_by_verdict(word))?;
        Ok(())
    }

    /// Appends what is wrong with a line, of which this stands behind the spaces in front, and which
    /// begins with no keyword of a suite.
    fn push_first(self, alloc: Global, text: &mut String, start: &str) -> Result<(), AllocError> {
        let first = cut(start).0;
        if is_of_other_form(start) {
            self.push_said(
                alloc,
                text,
                start,
                "a suite is lines of words, two spaces a level",
            )?;
            return text.push_str(EXAMPLE);
        }
        if !lines_with(alloc, first)?.is_empty() {
            let said = "an attribute stands on the line of its node, behind the name";
            return self.push_said(alloc, text, start, said);
        }
        let words = line_words();
        let mut otherwise = String::from_str(alloc, "; a line begins with ")?;
        push_choices(&mut otherwise, words.as_slice())?;
        let place = Place {
            said: "no line begins with that word",
            right: "",
            known: words.as_slice(),
            otherwise: otherwise.as_str(),
        };
        let meant = meant_by_line(first).or(meant_by_attribute(first));
        self.push_unknown(alloc, text, start, place, meant)?;
        Ok(())
    }

    /// Appends what is wrong with this line, one of these, which cannot be read.
    fn push_unread(
        self,
        alloc: Global,
        text: &mut String,
        lines: &[&str],
    ) -> Result<(), AllocError> {
        let start = without_front(self.line);
        let (first, rest) = cut(start);
        if first.contains('\t') {
            let said =
                "a tab stands there: a level is two spaces, and one space stands between words";
            return self.push_said(alloc, text, start, said);
        }
        if is_comment(start) {
            return self.push_said(alloc, text, start, COMMENT);
        }
        let Some(word) = LineWord::spelled(first) else {
            return self.push_first(alloc, text, start);
        };
        let stands = may_stand(lines, self.number, word);
        match word {
            LineWord::After if stands => self.push_after(alloc, text, rest),
            LineWord::Node(word) if stands => self.push_behind(alloc, text, word, rest),
            _ => self.push_said(alloc, text, start, where_stands(word)),
        }
    }

    /// Appends why the line may not begin with so many spaces.
    fn push_indent(self, alloc: Global, text: &mut String, most: usize) -> Result<(), AllocError> {
        if is_comment(without_front(self.line)) {
            return self.push_said(alloc, text, without_front(self.line), COMMENT);
        }
        let (number, spaces) = (self.number, indentation(self.line));
        write!(text, "Line {number} begins with {spaces} spaces: ")?;
        if spaces % 2 != 0 {
            text.push_str("a level is two spaces, so their number is even\n")?;
        } else {
            write!(
                text,
                "here {most} are the most, two more than the line of a node above it\n"
            )?;
        }
        push_marked(alloc, text, self.line, spaces)
    }

    /// Appends which limit the line of a node is over, where so many nodes were asked for.
    fn push_node(
        self,
        alloc: Global,
        text: &mut String,
        fault: TreeFault,
        most: Option<NodeLimit>,
        same: usize,
    ) -> Result<(), AllocError> {
        let (_, name) = cut(without_front(self.line));
        let too_many = too_many_nodes(alloc, most)?;
        let said = match fault {
            TreeFault::TooMany => too_many.as_str(),
            TreeFault::DoubleId =>
                "the same word and name stand below the same line already: give it another name",
            TreeFault::OverLimit => limit_passed(alloc, self.line),
            _ => "this node may not stand here",
        };
        self.push_said(alloc, text, name, said)?;
        if same > 0 {
            write!(text, "It stands in line {same} first.\n")?;
        }
        Ok(())
    }
}

/// Appends where bytes are that are no text, behind this text.
fn push_bytes(
    alloc: Global,
    text: &mut String,
    number: usize,
    front: &str,
) -> Result<(), AllocError> {
    let line = format!(in alloc; "{}?", last_line(front))?;
    let spot = Spot {
        line: line.as_str(),
        number,
    };
    spot.push_said(
        alloc,
        text,
        "?",
        "the byte there is no UTF-8; save the suite as UTF-8",
    )
}

/// Appends what is wrong with a property.
fn push_property(
    alloc: Global,
    text: &mut String,
    lines: &[&str],
    fault: ParamsFault,
) -> Result<(), AllocError> {
    let (number, said) = match fault {
        ParamsFault::NoMemory => return Ok(()),
        ParamsFault::NoEquals(number) => (
            number,
            "a property is KEY=VALUE: an = belongs behind the key",
        ),
        ParamsFault::EmptyKey(number) => (
            number,
            "a property is KEY=VALUE: a key belongs before the =",
        ),
    };
    let line = line_at(lines, number);
    let spot = Spot { line, number };
    spot.push_said(alloc, text, cut(without_front(line)).1, said)
}

/// Appends what is wrong with a line of these, where so many nodes were asked for.
fn push_line(
    alloc: Global,
    text: &mut String,
    fault: SuiteFault,
    most: Option<NodeLimit>,
    lines: &[&str],
) -> Result<(), AllocError> {
    match fault {
        SuiteFault::NoMemory | SuiteFault::TooLarge => Ok(()),
        SuiteFault::BadLine(number) => {
            let line = line_at(lines, number);
            Spot { line, number }.push_unread(alloc, text, lines)
        }
        SuiteFault::BadIndent(number) => {
            let line = line_at(lines, number);
            Spot { line, number }.push_indent(alloc, text, deepest(lines, number))
        }
        SuiteFault::MissingVerdict(number) => {
            let line = line_at(lines, number);
            let forms = verdict_forms(alloc, Verdict::all().as_slice())?;
            let said = format!(in alloc; "a verdict belongs at the end: {forms}")?;
            Spot { line, number }.push_said(alloc, text, "", said.as_str())
        }
        SuiteFault::Refused {
            fault,
            line: number,
        } => {
            let line = line_at(lines, number);
            let same = match fault {
                TreeFault::DoubleId => same_node(lines, number),
                _ => 0,
            };
            Spot { line, number }.push_node(alloc, text, fault, most, same)
        }
        SuiteFault::BadProperty(fault) => push_property(alloc, text, lines, fault),
    }
}

/// Appends what is wrong with the suite of these bytes, which was read as one of so many nodes, if
/// that was asked for.
pub fn push_suite(
    alloc: Global,
    text: &mut String,
    fault: SuiteFault,
    most: Option<NodeLimit>,
    bytes: &[u8],
) -> Result<(), AllocError> {
    if let SuiteFault::TooLarge = fault {
        return text.push_str(too_many_bytes(most));
    }
    let (front, is_text) = text_of(bytes);
    if !is_text {
        let number = fault.place().unwrap_or(0);
        return push_bytes(alloc, text, number as usize, front);
    }
    let lines: Vec<&str> = front.lines().collect(alloc)?;
    push_line(alloc, text, fault, most, lines.as_slice())
}
