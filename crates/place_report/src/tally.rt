//! What the row of a partition says of its log.

ghost use Rattle.std.specs.Prelude.{◌≡◌, ◌<◌, ◌^◌, ◌==◌, [], ℕ, List, All, find, fold, length, map, max};
ghost use Rattle.key_index.specs.Keys.{IsWithoutRepeats, Key, distinct, key_at};
ghost use Rattle.keyed_table.specs.Counts.{plain};
ghost use Rattle.place_report.specs.Private.Tallies.{AreCountsOf, IsTallyOf};

/// What the key numbers of a log amount to.
#[derive(Clone, Copy, Debug)]
pub struct Tally {
    /// How many different numbers there are.
    pub keys: u32,
    /// How often the most frequent one occurs; 0 if there is none.
    pub most: u32,
    /// The most frequent one, and of several the one that came first.
    pub largest: Option<u32>,
}

/// Counts each of these numbers, and returns how many different ones there are.
fn count_each(counters: &mut [u32], ids: &[u32]) -> u32
    requires numbers { All (λ id. id < length counters.old) ids.now }
    requires zeros { AreCountsOf [] counters.old }
    requires bound { length ids.now < 2 ^ 32 }
    ensures counters { AreCountsOf ids.now counters.new }
    ensures len { length counters.new ≡ length counters.old }
    ensures value { (keys : List Key) → IsWithoutRepeats keys → length keys ≡ length counters.old
        → result ≡ length (distinct (map (key_at keys) ids.now)) }
{
    let mut different = 0;
    for i in 0..ids.len() {
        let id = ids[i] as usize;
        if counters[id] == 0 {
            different += 1;
        }
        counters[id] += 1;
    }
    different
}

/// How often the most frequent of these numbers occurs, which are counted.
fn most_of(counters: &[u32], ids: &[u32]) -> u32
    requires numbers { All (λ id. id < length counters.now) ids.now }
    requires counters { AreCountsOf ids.now counters.now }
    ensures { result ≡ fold (λ most id. max most (plain ids.now id)) 0 ids.now }
{
    let mut most = 0;
    for i in 0..ids.len() {
        most = most.max(counters[ids[i] as usize]);
    }
    most
}

/// The first of these numbers, which are counted, that occurs so often.
fn first_of(counters: &[u32], ids: &[u32], most: u32) -> Option<u32>
    requires numbers { All (λ id. id < length counters.now) ids.now }
    requires counters { AreCountsOf ids.now counters.now }
    ensures { result ≡ find (λ id. plain ids.now id == most) ids.now }
{
    for i in 0..ids.len() {
        if counters[ids[i] as usize] == most {
            return Some(ids[i]);
        }
    }
    None
}

/// Takes these numbers, which are counted, off their counters again.
fn take_off(counters: &mut [u32], ids: &[u32])
    requires numbers { All (λ id. id < length counters.old) ids.now }
    requires counters { AreCountsOf ids.now counters.old }
    ensures zeros { AreCountsOf [] counters.new }
    ensures len { length counters.new ≡ length counters.old }
{
    for i in 0..ids.len() {
        counters[ids[i] as usize] -= 1;
    }
}

/// The tally of these numbers, each of which has a counter. The counters are zero before and after.
pub fn tally_of(counters: &mut [u32], ids: &[u32]) -> Tally
    requires numbers { All (λ id. id < length counters.old) ids.now }
    requires zeros { AreCountsOf [] counters.old }
    requires bound { length ids.now < 2 ^ 32 }
    ensures zeros { AreCountsOf [] counters.new }
    ensures len { length counters.new ≡ length counters.old }
    ensures value { (keys : List Key) → IsWithoutRepeats keys → length keys ≡ length counters.old
        → IsTallyOf keys (map (key_at keys) ids.now) result }
{
    let keys = count_each(counters, ids);
    let most = most_of(counters, ids);
    let largest = first_of(counters, ids, most);
    take_off(counters, ids);
    Tally {
        keys,
        most,
        largest,
    }
}
