//! Texts one after another.

ghost use Rattle.std.specs.Prelude.{◌≡◌, ◌++◌, ◌∷◌, drop, OnOk};

use lane_words::Memory;

/// What stands between the words of a cell.
pub const SPACE: u8 = b' ';

/// What stands between the members of a cell.
pub const SEMICOLON: u8 = b';';

/// Appends bytes to a text.
pub fn push(text: &mut Vec<u8>, bytes: &[u8]) -> Result<(), Memory>
    ensures { OnOk result (text.new.items ≡ text.old.items ++ bytes.now) }
{
    text.extend_from_slice(bytes)?;
    Ok(())
}

/// Appends a character, and bytes after it.
pub fn push_after(text: &mut Vec<u8>, mark: u8, bytes: &[u8]) -> Result<(), Memory>
    ensures { OnOk result (text.new.items ≡ text.old.items ++ mark ∷ bytes.now) }
{
    text.push(mark)?;
    push(text, bytes)
}

/// A text without its first character.
pub fn after_first(text: &[u8]) -> &[u8]
    ensures { result.now ≡ drop 1 text.now }
{
    match text {
        [_, rest @ ..] => rest,
        [] => &[],
    }
}
