//! What a run's output begins with, and its warnings where its configuration is taken with some.

ghost use Rattle.std.specs.Prelude.{◌≡◌, ◌++◌, IfOk, OnOk, string_bytes};
ghost use Rattle.std.specs.List.{flat_map};
ghost use Rattle.config_params.specs.Settings.{keys_of};
ghost use Rattle.run_outputs.specs.WarningTexts.{beginning, head_of, warning_line};

use config_params::Warnings;
use launch_options::Details;
use reports::push_note;
use std::alloc::{AllocError, Global};

/// What an output begins with, whatever is warned of.
pub fn beginning(details: Details) -> &'static str
    ensures { result.now ≡ beginning details }
{
    match details {
        Details::Xml => "<?xml version=\"1.0\" encoding=\"UTF-8\"?>\n",
        _ => "",
    }
}

/// Appends the line of a key that is warned of, in the form of the details.
fn push_warning(text: &mut String, details: Details, key: &str) -> Result<(), AllocError>
    ensures { OnOk result (string_bytes text.new ≡ string_bytes text.old ++ warning_line details key.now) }
{
    match details {
        Details::Json | Details::Plan => push_note(text, "warning", "key", key),
        Details::Xml => writeln!(text, "<!-- WARNING {key} -->"),
        Details::None | Details::Summary | Details::Tree | Details::Testfeed | Details::List =>
            writeln!(text, "WARNING {key}"),
    }
}

/// Appends a line for each key that is warned of.
fn push_warnings(text: &mut String, details: Details, warnings: Warnings) -> Result<(), AllocError>
    ensures { OnOk result (string_bytes text.new ≡ string_bytes text.old
        ++ flat_map (warning_line details) (keys_of warnings)) }
{
    let keys = warnings.keys();
    for key in keys {
        push_warning(text, details, key)?;
    }
    Ok(())
}

/// What an output with these details begins with, and a line for each key that is warned of.
pub(crate) fn head_text(
    alloc: Global,
    details: Details,
    warnings: Warnings,
) -> Result<String, AllocError>
    ensures { IfOk result (λ text. string_bytes text ≡ head_of details warnings) }
{
    let mut text = String::from_str(alloc, beginning(details))?;
    push_warnings(&mut text, details, warnings)?;
    Ok(text)
}
