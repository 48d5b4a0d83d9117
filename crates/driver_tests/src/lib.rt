//! Tests of `group_machine`, `script`, `world` and `workers` through their public calls. They have
//! a crate of their own since a crate with tests is proved twice, with them and without.
#![tactic(auto)]

ghost use Rattle.std.specs.Prelude.{◌≡◌, ◌++◌, IfOk, replicate};

#[cfg(test)]
mod acts;
#[cfg(test)]
mod groups;
#[cfg(test)]
mod plans;
#[cfg(test)]
mod runs;
#[cfg(test)]
mod schedules;
#[cfg(test)]
mod scripts;
#[cfg(test)]
mod worlds;

use lane_words::Memory;
use std::alloc::Global;

/// A text followed by `count` times the same byte, for lines and names at their length limits.
pub fn longer(alloc: Global, text: &[u8], byte: u8, count: usize) -> Result<Vec<u8>, Memory>
    ensures { IfOk result (λ longer. longer.items ≡ text.now ++ replicate count byte) }
{
    let mut longer = text.to_vec(alloc)?;
    longer.extend_from_slice(&vec![in alloc; byte; count]?)?;
    Ok(longer)
}
