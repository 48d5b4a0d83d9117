//! Tests of command lines and of the jobs that they ask for. They have a crate of their own, since
//! a crate with tests is proved twice.
#![tactic(auto)]

ghost use Rattle.std.specs.Prelude.{◌≡◌};
ghost use Rattle.command_tests.specs.Columns.{number_of};

#[cfg(test)]
mod words;

use command_line::Column;

/// The number of a column; 0 if it has a name.
pub fn number(column: &Column) -> u32
    ensures { result ≡ number_of column.now }
{
    match column {
        Column::Number(number) => *number,
        Column::Named(_) => 0,
    }
}
