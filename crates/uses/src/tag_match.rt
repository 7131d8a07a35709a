//! Calls `tag_expr`: a tag expression is read, and is asked of a set of tags.

ghost use Rattle.std.specs.Prelude.{◌≡◌, IfOk, map};
ghost use Rattle.tag_expr.specs.Expressions.{Expression, truth};
ghost use Rattle.tag_expr.specs.Grammar.{Spells, or_phrase};
ghost use Rattle.tag_expr.specs.Tokens.{tokens, token_of};

use std::alloc::Global;
use tag_expr::{TagExpr, TagFault, TagSet};

/// Whether the expression that a text spells is true of a set of tags.
pub fn is_true_of(alloc: Global, expression: &str, tags: &TagSet) -> Result<bool, TagFault>
    ensures { IfOk result (λ is_true. (e : Expression) × Spells or_phrase (map token_of (tokens expression.now)) e
        × (is_true ≡ truth e tags.now)) }
{
    let expression = TagExpr::parse(alloc, expression)?;
    Ok(expression.matches(tags))
}
