//! The themes of `--details-theme`, by their names.

ghost use Rattle.std.specs.Prelude.{◌≡◌, Some, map};
ghost use Rattle.std.specs.List.{Contains};
ghost use Rattle.unique_id.specs.Answers.{texts};
ghost use Rattle.run_results.specs.declared.theme.Theme.{Theme};
ghost use Rattle.launch_options.specs.Asked.{all_themes, theme_text, theme_named};

use run_results::Theme;

const UNICODE: &str = "unicode";

const ASCII: &str = "ascii";

/// The names of all themes.
pub fn theme_names() -> [&'static str; 2]
    ensures exact { texts result ≡ map theme_text all_themes }
    ensures every { (theme : Theme) → Contains (texts result) (theme_text theme) }
{
    [UNICODE, ASCII]
}

/// The theme of this name.
pub fn theme_of(name: &str) -> Option<Theme>
    ensures { result ≡ theme_named (Some name.now) }
{
    match name {
        UNICODE => Some(Theme::Unicode),
        ASCII => Some(Theme::Ascii),
        _ => None,
    }
}
