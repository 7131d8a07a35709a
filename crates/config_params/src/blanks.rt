//! Texts without what stands at their ends.

ghost use Rattle.std.specs.Prelude.{◌≡◌, ◌≢◌, ◌∷◌, [], ◌++◌, List, ℕ, true, false, MatchOption};
ghost use Rattle.config_params.specs.Blanks.{is_blank, without_front, without_end, without_ends};

/// What is dropped at the ends of a text.
#[derive(Clone, Copy, Drop)]
pub(crate) enum Blanks {
    Spaces,
    SpacesAndTabs,
}

/// The text after its first character, where that is a blank.
fn after_blank(blanks: Blanks, text: &str) -> Option<&str>
    ensures { MatchOption result ((b : ℕ) (rest : List ℕ) → text.now ≡ b ∷ rest → is_blank blanks b ≡ false)
        (λ rest. (b : ℕ) × (is_blank blanks b ≡ true) × (text.now ≡ b ∷ rest.now)) }
{
    match text.strip_prefix(' ') {
        Some(rest) => Some(rest),
        None => match blanks {
            Blanks::Spaces => None,
            Blanks::SpacesAndTabs => text.strip_prefix('\t'),
        },
    }
}

/// The text before its last character, where that is a blank.
fn before_blank(blanks: Blanks, text: &str) -> Option<&str>
    ensures { MatchOption result ((b : ℕ) (front : List ℕ) → text.now ≡ front ++ b ∷ [] → is_blank blanks b ≡ false)
        (λ front. (b : ℕ) × (is_blank blanks b ≡ true) × (text.now ≡ front.now ++ b ∷ [])) }
{
    match text.strip_suffix(' ') {
        Some(front) => Some(front),
        None => match blanks {
            Blanks::Spaces => None,
            Blanks::SpacesAndTabs => text.strip_suffix('\t'),
        },
    }
}

/// The text without the blanks in front.
pub(crate) fn without_front(blanks: Blanks, text: &str) -> &str
    ensures { result.now ≡ without_front blanks text.now }
{
    let mut left = text;
    while let Some(shorter) = after_blank(blanks, left) {
        left = shorter;
    }
    left
}

/// The text without the blanks at its end.
fn without_end(blanks: Blanks, text: &str) -> &str
    ensures { result.now ≡ without_end blanks text.now }
{
    let mut left = text;
    while let Some(shorter) = before_blank(blanks, left) {
        left = shorter;
    }
    left
}

/// The text without the blanks at both ends.
pub(crate) fn without_ends(blanks: Blanks, text: &str) -> &str
    ensures { result.now ≡ without_ends blanks text.now }
{
    without_end(blanks, without_front(blanks, text))
}
