//! Tests of the layers GROUND, INGEST and LOG. They have a crate of their own because a crate with
//! tests is proved twice, once without them.
#![tactic(auto)]

ghost use Rattle.std.specs.Prelude.{◌≡◌, ◌+◌, ◌≤◌, length, slice_range};

#[cfg(test)]
mod drawn;
#[cfg(test)]
mod files;
#[cfg(test)]
mod hashes;
#[cfg(test)]
mod headers;
#[cfg(test)]
mod key_hashes;
#[cfg(test)]
mod key_words;
#[cfg(test)]
mod keys;
#[cfg(test)]
mod logs;
#[cfg(test)]
mod pieces;
#[cfg(test)]
mod places;
#[cfg(test)]
mod reference_keys;
#[cfg(test)]
mod reference_places;
#[cfg(test)]
mod refusals;
#[cfg(test)]
mod topics;
#[cfg(test)]
mod words;

/// `len` bytes from index `start` on. Tests take keys of all lengths from one buffer this way.
pub fn window(bytes: &[u8], start: usize, len: usize) -> &[u8]
    requires { start + len ≤ length bytes.now }
    ensures { result.now ≡ slice_range bytes.now start (start + len) }
{
    &bytes[start..start + len]
}
