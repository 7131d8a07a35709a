//! A text of properties.

ghost use Rattle.std.specs.Prelude.{◌≡◌, fold, IfOk, OnOk};
ghost use Rattle.config_params.specs.Properties.{refusal_of, pairs_said, pairs_of};
ghost use Rattle.config_params.specs.Tables.{with_pair, table_of};
ghost use Rattle.config_params.specs.Pairs.{property_of};

use crate::fault::ParamsFault;
use crate::pair::property_of;
use crate::table::Table;
use std::alloc::{AllocError, Global};

/// Why the text is refused: the fault of its first faulty line. Takes no memory.
pub(crate) fn refusal_of(text: &str) -> Option<ParamsFault>
    ensures { result ≡ refusal_of text.now }
{
    let mut number = 1;
    for line in text.lines() {
        if let Err(fault) = property_of(number, line) {
            return Some(fault);
        }
        number += 1;
    }
    None
}

/// Puts the pair of a line into a table, where the line says one.
fn put_line(alloc: Global, table: &mut Table, line: &str) -> Result<(), AllocError>
    ensures { OnOk result (table.new ≡ fold with_pair table.old
        (pairs_said (property_of 1 line.now))) }
{
    match property_of(1, line) {
        Ok(Some(pair)) => table.put(alloc, pair.key, pair.value),
        Ok(None) | Err(_) => Ok(()),
    }
}

/// The table of a text's pairs; of a repeated key the last value counts.
pub(crate) fn table_of(alloc: Global, text: &str) -> Result<Table, AllocError>
    ensures { IfOk result (λ table. table ≡ table_of (pairs_of text.now)) }
{
    let mut table = Table::new(alloc);
    for line in text.lines() {
        put_line(alloc, &mut table, line)?;
    }
    Ok(table)
}
