//! The signs that the tree is drawn with.

ghost use Rattle.std.specs.Prelude.{◌≡◌};

use plan_events::Status;

/// The signs that the tree is drawn with.
#[derive(Clone, Copy)]
pub enum Theme {
    /// Lines and marks of Unicode.
    Unicode,
    /// Signs of ASCII alone.
    Ascii,
}

impl Theme {
    ghost use Rattle.run_results.specs.TreeSigns.{branch, item, mark, skip_mark};

    /// What stands before a name.
    pub(crate) fn branch(self, is_last: bool) -> &'static str
        ensures { result.now ≡ branch self is_last }
    {
        match (self, is_last) {
            (Theme::Unicode, false) => "├─ ",
            (Theme::Unicode, true) => "└─ ",
            (Theme::Ascii, false) => "+-- ",
            (Theme::Ascii, true) => "'-- ",
        }
    }

    /// What stands for an ancestor: a bar or blanks.
    pub(crate) fn item(self, is_last: bool) -> &'static str
        ensures { result.now ≡ item self is_last }
    {
        match (self, is_last) {
            (Theme::Unicode, false) => "│  ",
            (Theme::Unicode, true) => "   ",
            (Theme::Ascii, false) => "|   ",
            (Theme::Ascii, true) => "    ",
        }
    }

    /// The mark of how a node ended.
    pub(crate) fn mark(self, status: Status) -> &'static str
        ensures { result.now ≡ mark self status }
    {
        match (self, status) {
            (Theme::Unicode, Status::Successful) => "✔",
            (Theme::Unicode, Status::Aborted) => "■",
            (Theme::Unicode, Status::Failed) => "✘",
            (Theme::Ascii, Status::Successful) => "[OK]",
            (Theme::Ascii, Status::Aborted) => "[A]",
            (Theme::Ascii, Status::Failed) => "[X]",
        }
    }

    /// The mark of a node that was skipped.
    pub(crate) fn skip_mark(self) -> &'static str
        ensures { result.now ≡ skip_mark self }
    {
        match self {
            Theme::Unicode => "↷",
            Theme::Ascii => "[S]",
        }
    }
}
