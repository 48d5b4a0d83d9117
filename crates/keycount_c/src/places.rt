//! Where keys go. No handle is needed.

ghost use Rattle.std.specs.Prelude.{◌≡◌, ◌<◌, ◌≤◌, ◌↔◌, IsTrue, length};
ghost use Rattle.murmur_lanes.specs.Murmur.{hash_of};
ghost use Rattle.keycount_c.specs.Places.{AreKeys, ArePlaced, Places, PlacesAll, start_of_key};

use crate::answers::{BAD_ARGUMENT, DONE};
use lane_words::MOST_PARTITIONS;
use murmur_lanes::murmur2;
use partitioner::Partitions;

/// The murmur2 hash of a key, as `murmur2`.
#[unsafe(no_mangle)]
pub extern "C" fn keycount_murmur2(key: &[u8]) -> u32
    ensures { result ≡ hash_of key.now }
{
    murmur2(key)
}

/// The partition of a key among 1 to 4096, as `Partitions::place`. Not done: it is another number
/// of partitions (103).
#[unsafe(no_mangle)]
pub extern "C" fn keycount_place(partitions: u32, key: &[u8], partition: &mut u32) -> u32
    ensures { Places partitions key.now partition.old result partition.new }
{
    if partitions < 1 || MOST_PARTITIONS < partitions {
        return BAD_ARGUMENT;
    }
    *partition = Partitions::new(partitions).place(key);
    DONE
}

/// The partitions of keys that lie one after another in `bytes`, each up to its end, among 1 to
/// 4096: to the front of `places`, in their order.
///
/// Not done: it is another number of partitions, the ends do not rise or are past the bytes, or
/// `places` has less room than there are ends (103).
#[unsafe(no_mangle)]
pub extern "C" fn keycount_place_all(
    partitions: u32,
    bytes: &[u8],
    ends: &[usize],
    places: &mut [u32],
) -> u32
    ensures { PlacesAll partitions bytes.now ends.now places.old result places.new }
{
    if partitions < 1 || MOST_PARTITIONS < partitions || places.len() < ends.len() {
        return BAD_ARGUMENT;
    }
    if !are_keys(bytes.len(), ends) {
        return BAD_ARGUMENT;
    }
    put_places(partitions, bytes, ends, places);
    DONE
}

/// Whether each key ends where it begins or later, and within so many bytes.
fn are_keys(len: usize, ends: &[usize]) -> bool
    ensures { IsTrue result ↔ AreKeys len ends.now }
{
    for i in 0..ends.len() {
        if ends[i] < start_at(ends, i) || len < ends[i] {
            return false;
        }
    }
    true
}

/// Where a key begins: where the one before it ends.
fn start_at(ends: &[usize], i: usize) -> usize
    requires { i ≤ length ends.now }
    ensures { result ≡ start_of_key ends.now i }
{
    if i == 0 { 0 } else { ends[i - 1] }
}

/// Writes the partition of each key to its index.
fn put_places(partitions: u32, bytes: &[u8], ends: &[usize], places: &mut [u32])
    requires partitions { (1 ≤ partitions) × (partitions ≤ MOST_PARTITIONS) }
    requires keys { AreKeys (length bytes.now) ends.now }
    requires len { length ends.now ≤ length places.old }
    ensures { ArePlaced partitions bytes.now ends.now places.old places.new }
{
    let partitions = Partitions::new(partitions);
    for i in 0..ends.len() {
        places[i] = partitions.place(&bytes[start_at(ends, i)..ends[i]]);
    }
}
