//! A map of keys that were interned in parallel, sharded by hash.

ghost use Rattle.std.specs.Prelude.{◌≡◌, ◌<◌, ◌≤◌, [], IfOk, IfSome, IfNone, IsOk, length, map, slice_index_or, vec_items, vec_len, true, false};
ghost use Rattle.key_index.specs.Interned.{IsDictionaryOf};
ghost use Rattle.key_index.specs.Keys.{IsIdOf, IsWithoutRepeats, distinct, id_of, is_interned, key_at, lent_lists};
ghost use Rattle.key_index.specs.Private.Sharded.{AreShards, key_at_location, shard_of};

use crate::interning::intern_keys;
use crate::key_hash::KeyHash;
use crate::key_map::KeyMap;
use crate::stored_key::LONGEST_INLINE;
use lane_words::{MOST_RECORDS, Memory};
use parallel::{LEAST_DROPS, LEAST_KEYS, collect_each, copy_lists, drop_each, processors};
use std::alloc::Global;
use std::marker::Model;
use std::thread::Threads;

/// How many shards there are. With a few million distinct keys the table of one shard almost fits a
/// processor's own cache.
pub const SHARDS: u8 = 40;

/// The shard of a key, from its keyed hash: whoever chooses the keys cannot choose their shards.
///
/// The shard's own table finds a key by the lowest bits of the same hash. The shard comes from
/// higher bits, so that the keys of one shard are spread over its whole table.
#[inline(always)]
#[tactic(auto, unfolding(crate::specs::Private::Sharded::shard_of))]
pub fn shard_of(hasher: &KeyHash, key: &[u8]) -> u8
    ensures shard { result ≡ shard_of hasher.now key.now }
    ensures bound { result < SHARDS }
{
    (hasher.hash_of(key) / (1 << 19) % u64::from(SHARDS)) as u8
}

/// The location of a key.
#[derive(Clone, Copy)]
pub struct KeyLocation {
    /// Its shard.
    pub shard: u8,
    /// Its number in the shard.
    pub number: u32,
}

/// An immutable map of keys by number. Each shard is a table with numbers of its own.
#[derive(Drop)]
pub struct ShardedMap {
    /// The hash of the keys, which decides their shards too.
    hasher: KeyHash,
    /// The keys of each shard.
    tables: Vec<KeyMap>,
    /// The key numbers of the keys of each shard, by their numbers there.
    ids: Vec<Vec<u32>>,
    /// The location of each key, by key number.
    order: Vec<KeyLocation>,
}

/// Interned lists.
#[derive(Drop)]
pub struct Interned {
    /// The distinct keys of all lists, in the order of their first appearance.
    pub keys: ShardedMap,
    /// The key number of each record, one list after another.
    pub ids: Vec<u32>,
}

impl Model for ShardedMap {
    ghost use Rattle.std.specs.Prelude.{List, ℕ, map, vec_items};
    ghost use Rattle.key_index.specs.Private.Sharded.{AreShards, key_at_location, shard_of};

    ghost Value = { List (List ℕ) };

    ghost view = { λ k. map (key_at_location k.tables.items) k.order.items };

    ghost invariant = { λ k. AreShards (shard_of k.hasher)
        (map (key_at_location k.tables.items) k.order.items) k.tables.items
        (map vec_items k.ids.items) k.order.items };
}

impl ShardedMap {
    /// An empty map.
    pub(crate) fn none(alloc: Global, hasher: KeyHash) -> ShardedMap
        ensures { result ≡ [] }
    {
        ShardedMap {
            hasher,
            tables: Vec::new(alloc),
            ids: Vec::new(alloc),
            order: Vec::new(alloc),
        }
    }

    /// Interns the keys of these lists, as `KeyDictionary::intern_all` describes it, several
    /// shards side by side, or by the calling thread if no other can be started.
    pub(crate) fn of<R: Threads + Sync, T: Send + Drop, F: FnOnce() -> T + Send + Drop>(
        rt: &R,
        alloc: Global,
        hasher: KeyHash,
        lists: &[&[&[u8]]],
        capacity: usize,
        overlapped: F,
    ) -> Result<(Interned, T), Memory>
        requires bound { length (lent_lists lists.now) ≤ MOST_RECORDS }
        requires overlapped { F.pre overlapped }
        ensures value { IfOk result (λ r. IsDictionaryOf (lent_lists lists.now) r.0) }
        ensures overlapped { IfOk result (λ r. F.post overlapped r.1) }
    {
        let (numbered, other) = intern_keys(rt, alloc, hasher, lists, capacity, overlapped)?;
        let keys = ShardedMap {
            hasher,
            tables: numbered.tables,
            ids: numbered.ids,
            order: numbered.order,
        };
        let ids = numbered.numbers;
        Ok((Interned { keys, ids }, other))
    }

    /// A map of the same keys with the same numbers: the shards are copied in parallel, if it has
    /// many keys.
    pub(crate) fn copy<R: Threads + Sync>(
        &self,
        rt: &R,
        alloc: Global,
    ) -> Result<ShardedMap, Memory>
        requires { IsWithoutRepeats self.now }
        ensures { IfOk result (λ copy. copy ≡ self.now) }
    {
        let threads = if self.order.len() < LEAST_KEYS {
            1
        } else {
            processors(rt)
        };
        let tables = copied_tables(rt, alloc, self.hasher, self.tables.as_slice(), threads)?;
        Ok(ShardedMap {
            hasher: self.hasher,
            tables,
            ids: copy_lists(rt, alloc, self.ids.as_slice())?,
            order: Vec::from_slice(alloc, self.order.as_slice())?,
        })
    }

    /// Drops the map: the shards in parallel, if it has many keys.
    pub(crate) fn drop_parallel<R: Threads + Sync>(self, rt: &R) {
        if self.order.len() < LEAST_DROPS {
            return;
        }
        let ShardedMap { tables, .. } = self;
        drop_each(rt, tables);
    }

    /// The number of keys.
    pub(crate) fn count(&self) -> u32
        ensures { result ≡ length self.now }
    {
        self.order.len() as u32
    }

    /// The key with this number.
    pub(crate) fn key(&self, number: u32) -> &[u8]
        requires { number < length self.now }
        ensures { result.now ≡ key_at self.now number }
    {
        let at = self.order[number as usize];
        self.tables[at.shard as usize].key(at.number)
    }

    /// The number of a key, or none if the key is not in the map. Only a key longer than
    /// `LONGEST_INLINE` can need memory, and only if it is longer than any sought before.
    pub(crate) fn find(&mut self, key: &[u8]) -> Result<Option<u32>, Memory>
        ensures found { IfOk result (λ found. IfSome found (IsIdOf self.old key.now)) }
        ensures absent { IfOk result
            (λ found. IfNone found (is_interned self.old key.now ≡ false)) }
        ensures accepts { length key.now ≤ LONGEST_INLINE → IsOk result }
        ensures same { self.new ≡ self.old }
    {
        if self.order.is_empty() {
            return Ok(None);
        }
        let shard = shard_of(&self.hasher, key) as usize;
        let Some(local_id) = find_in_shard(&mut self.tables, shard, key)? else {
            return Ok(None);
        };
        Ok(Some(self.ids[shard][local_id as usize]))
    }
}

/// The number of a key in this shard, if it is there.
fn find_in_shard(tables: &mut Vec<KeyMap>, shard: usize, key: &[u8]) -> Result<Option<u32>, Memory>
    requires { shard < vec_len tables.old }
    ensures found { IfOk result (λ found. IfSome found
        (IsIdOf (slice_index_or tables.old.items shard []) key.now)) }
    ensures absent { IfOk result (λ found. IfNone found
        (is_interned (slice_index_or tables.old.items shard []) key.now ≡ false)) }
    ensures accepts { length key.now ≤ LONGEST_INLINE → IsOk result }
    ensures same { tables.new.items ≡ tables.old.items }
{
    tables[shard].find(key)
}

/// The distinct keys of each table, copied in so many threads at most.
fn copied_tables<R: Threads + Sync>(
    rt: &R,
    alloc: Global,
    hasher: KeyHash,
    tables: &[KeyMap],
    threads: usize,
) -> Result<Vec<KeyMap>, Memory>
    ensures { IfOk result (λ copies. copies.items ≡ map distinct tables.now) }
{
    collect_each(
        rt,
        alloc,
        tables.len(),
        threads,
        &|s| table_copy(tables, s, hasher),
    )
}

/// The distinct keys of the table of this index.
fn table_copy(tables: &[KeyMap], s: usize, hasher: KeyHash) -> Result<KeyMap, Memory>
    requires { s < length tables.now }
    ensures { IfOk result (λ copy. copy ≡ distinct (slice_index_or tables.now s [])) }
{
    tables[s].copy(hasher)
}
