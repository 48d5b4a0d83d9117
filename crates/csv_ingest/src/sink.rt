//! Those who take keys.

ghost use Rattle.std.specs.Prelude.{◌≡◌, ◌∷◌, [], ◌++◌, ℕ, List, IfOk, OnOk, map, vec_items};
ghost use Rattle.csv_ingest.specs.Private.Sinks.{list-more, list-nothing};
ghost use Rattle.csv_ingest.specs.Sinks.{item};

use lane_words::Memory;
use std::alloc::Global;

/// Takes the keys of records, one after another.
pub trait KeySink {
    // The second is the first after it took these keys, in order.
    ghost Takes: { Self → List (List ℕ) → Self → Type 0 };

    /// Takes a key behind the index of its topic, if it has one. An error is `Memory`; the sink is
    /// then not used again.
    fn take(&mut self, topic: Option<u8>, key: &[u8]) -> Result<(), Memory>
        ensures { OnOk result (Takes self.old (item topic key.now ∷ []) self.new) };

    ghost takes_nothing: { (s : Self) → Takes s [] s };

    ghost takes_more: { (a b c : Self) (first second : List (List ℕ))
        → Takes a first b → Takes b second c → Takes a (first ++ second) c };
}

/// A key behind the index of its topic, if it has one.
fn item_of(alloc: Global, topic: Option<u8>, key: &[u8]) -> Result<Vec<u8>, Memory>
    ensures { IfOk result (λ copy. copy.items ≡ item topic key.now) }
{
    let Some(index) = topic else {
        return Ok(Vec::from_slice(alloc, key)?);
    };
    let mut copy = Vec::with_capacity(alloc, key.len().saturating_add(1))?;
    copy.push(index)?;
    copy.extend_from_slice(key)?;
    Ok(copy)
}

/// Keeps the keys.
impl KeySink for Vec<Vec<u8>> {
    ghost Takes = { λ a keys b. map vec_items b.items ≡ map vec_items a.items ++ keys };

    fn take(&mut self, topic: Option<u8>, key: &[u8]) -> Result<(), Memory> {
        let alloc = *self.allocator();
        self.push(item_of(alloc, topic, key)?)?;
        Ok(())
    }

    ghost takes_nothing = { list-nothing };

    ghost takes_more = { list-more };
}
