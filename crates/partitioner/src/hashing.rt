//! Hashes of many keys without their highest bits. Keys of the same length are hashed eight at a
//! time.

ghost use Rattle.std.specs.Prelude.{◌≡◌, ◌≤◌, ◌<◌, ◌+◌, ◌^◌, ◌%◌, ℕ, List, length, map, slice_index_or};
ghost use Rattle.std.specs.Borrow.{Bor};
ghost use Rattle.murmur_lanes.specs.Murmur.{hash_of};
ghost use Rattle.partitioner.specs.Place.{positive_hash};
ghost use Rattle.partitioner.specs.Private.Groups.{AreComputed, AreOfLength, AreUnhashed, ArePendingFrom, extended_row};

use murmur_lanes::{murmur2, murmur2_x8};

/// How many keys are hashed at once.
const LANES: usize = 8;

/// Keys shorter than this are grouped by length and hashed eight at a time, others alone.
const GROUPED: usize = 65;

/// Stands for a hash that is not computed yet. No hash without its highest bit has this value.
pub const UNHASHED: u32 = u32::MAX;

/// A hash without its highest bit, as `Utils.toPositive` gives it.
fn positive(hash: u32) -> u32
    ensures { result ≡ hash % 2 ^ 31 }
{
    hash % (1 << 31)
}

/// The hash of a key without its highest bit.
#[tactic(auto, unfolding(crate::specs::Place::positive_hash))]
pub fn hash_key(key: &[u8]) -> u32
    ensures { result ≡ positive_hash key.now }
{
    positive(murmur2(key))
}

/// Computes the hashes of all keys. None of them may be computed yet.
#[tactic(auto, using(crate::proofs::Groups::computed_unhashed))]
pub fn hash_keys(keys: &[&[u8]], hashes: &mut [u32])
    requires len { length hashes.old ≡ length keys.now }
    requires empty { AreUnhashed hashes.old }
    ensures { hashes.new ≡ map (λ key. positive_hash key.now) keys.now }
{
    hash_eights(keys, hashes);
    hash_rest(keys, hashes);
}

/// Hashes the keys that fall into groups of eight of the same length, and leaves the others.
fn hash_eights(keys: &[&[u8]], hashes: &mut [u32])
    requires len { length hashes.old ≡ length keys.now }
    requires computed { AreComputed keys.now hashes.old }
    ensures len { length hashes.new ≡ length keys.now }
    ensures computed { AreComputed keys.now hashes.new }
{
    let mut rows = [[0; LANES]; GROUPED];
    let mut counts = [0; GROUPED];
    for i in 0..keys.len() {
        if keys[i].len() < GROUPED {
            add_to_group(i, keys, &mut rows, &mut counts, hashes);
        }
    }
}

/// Adds a key to the group of its length, and hashes the group once it has eight keys.
fn add_to_group(
    i: usize,
    keys: &[&[u8]],
    rows: &mut [[usize; LANES]; GROUPED],
    counts: &mut [usize; GROUPED],
    hashes: &mut [u32],
)
    requires index { i < length keys.now }
    requires bound { (d : Bor (List ℕ)) → length (slice_index_or keys.now i d).now < 65 }
    requires pending { ArePendingFrom keys.now 0 rows.old counts.old }
    requires len { length hashes.old ≡ length keys.now }
    requires computed { AreComputed keys.now hashes.old }
    ensures pending { ArePendingFrom keys.now 0 rows.new counts.new }
    ensures len { length hashes.new ≡ length keys.now }
    ensures computed { AreComputed keys.now hashes.new }
{
    let len = keys[i].len();
    let count = counts[len];
    rows[len] = extended(rows[len], count, i);
    if count < LANES - 1 {
        counts[len] = count + 1;
    } else {
        hash_eight(rows[len], keys, hashes);
        counts[len] = 0;
    }
}

/// Hashes eight keys of the same length.
fn hash_eight(row: [usize; LANES], keys: &[&[u8]], hashes: &mut [u32])
    requires row { (len : ℕ) × AreOfLength keys.now len row }
    requires len { length hashes.old ≡ length keys.now }
    requires computed { AreComputed keys.now hashes.old }
    ensures len { length hashes.new ≡ length keys.now }
    ensures computed { AreComputed keys.now hashes.new }
{
    let [a, b, c, d, e, f, g, h] = row;
    let eight = murmur2_x8([
        keys[a], keys[b], keys[c], keys[d], keys[e], keys[f], keys[g], keys[h],
    ]);
    for lane in 0..LANES {
        hashes[row[lane]] = positive(eight[lane]);
    }
}

/// Hashes one by one the keys that are not hashed yet.
fn hash_rest(keys: &[&[u8]], hashes: &mut [u32])
    requires len { length hashes.old ≡ length keys.now }
    requires computed { AreComputed keys.now hashes.old }
    ensures { hashes.new ≡ map (λ key. positive_hash key.now) keys.now }
{
    for i in 0..keys.len() {
        if hashes[i] == UNHASHED {
            hashes[i] = hash_key(keys[i]);
        }
    }
}

/// The group with one more index. A new group is filled with its first index, so that all eight
/// indices are of keys of one length from then on.
fn extended(row: [usize; LANES], count: usize, i: usize) -> [usize; LANES]
    requires { count < 8 }
    ensures { result ≡ extended_row row count i }
{
    if count == 0 {
        [i; LANES]
    } else {
        let mut extended = row;
        extended[count] = i;
        extended
    }
}
