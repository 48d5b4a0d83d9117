//! Tests of the cluster's crates below the group, by public calls alone. They have a crate of their
//! own because a crate with tests is proved twice. The modules `reference_*` are reference
//! implementations: slower, and obviously right. The tests compare the fast ones with them.
#![tactic(auto)]

ghost use Rattle.std.specs.Prelude.{◌≡◌, ◌<◌, ◌-◌, IfOk, length, slice_set};

#[cfg(test)]
mod assignments;
#[cfg(test)]
mod consumers;
#[cfg(test)]
mod planes;
#[cfg(test)]
mod rebalances;
#[cfg(test)]
mod reference_assign;
#[cfg(test)]
mod reference_grants;
#[cfg(test)]
mod reference_partial;
#[cfg(test)]
mod reference_plane;
#[cfg(test)]
mod stores;
#[cfg(test)]
mod tables;

use lane_words::Memory;
use std::alloc::Global;

/// The same numbers except for the last one. A comparison that skips the end misses the difference.
pub fn with_last(alloc: Global, numbers: &[u32], last: u32) -> Result<Vec<u32>, Memory>
    requires { 0 < length numbers.now }
    ensures { IfOk result
        (λ other. other.items ≡ slice_set numbers.now (length numbers.now - 1) last) }
{
    let mut other = numbers.to_vec(alloc)?;
    let index = other.len() - 1;
    other[index] = last;
    Ok(other)
}

/// Whether all counters are at 0.
#[cfg(test)]
fn are_zeros(counts: &[u64]) -> bool {
    for count in counts {
        if *count != 0 {
            return false;
        }
    }
    true
}
