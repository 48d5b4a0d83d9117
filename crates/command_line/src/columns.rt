//! The value of `--column` or `--topic-column`: a number, or a name in the header.

ghost use Rattle.std.specs.Prelude.{◌≡◌, true, IfOk};
ghost use Rattle.command_line.specs.Columns.{is_numeral};
ghost use Rattle.command_line.specs.Private.Columns.{IsParsedColumn, column_number};

use crate::options::{Column, LAST_COLUMN};
use crate::topics::is_all_digits;
use std::alloc::{AllocError, Global};

/// Parses a column: digits alone are its number, and any other text is its name, for which the file
/// must have a header. `None` where it is not valid.
pub fn parse_column(alloc: Global, text: &str, header: bool) -> Result<Option<Column>, AllocError>
    ensures { IfOk result (IsParsedColumn header text.now) }
{
    if is_numeral(text) {
        return Ok(column_number(text).map(Column::Number));
    }
    if !header {
        return Ok(None);
    }
    let name = Vec::from_slice(alloc, text.as_bytes())?;
    Ok(Some(Column::Named(name)))
}

/// Whether a text is a number: one or more digits.
pub fn is_numeral(text: &str) -> bool
    ensures { result ≡ is_numeral text.now }
{
    !text.is_empty() && is_all_digits(text)
}

/// The number of a column, from 1 to `LAST_COLUMN`.
fn column_number(digits: &str) -> Option<u32>
    requires { is_numeral digits.now ≡ true }
    ensures { result ≡ column_number digits.now }
{
    let Ok(number) = digits.parse::<u32>() else {
        return None;
    };
    (1..=LAST_COLUMN).contains(&number).then_some(number)
}
