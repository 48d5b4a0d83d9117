//! A list of key numbers, and how often each is in it.

ghost use Rattle.std.specs.Prelude.{◌≡◌};
ghost use Rattle.keyed_table.specs.Counts.{plain};

use std::marker::Model;

/// A list of key numbers. What it counts is added to a table number by number: no count is kept
/// beside the list, since to find the distinct numbers takes longer than to add each.
#[derive(Debug, Drop)]
pub struct Partial {
    /// The list, in its own order.
    ids: Vec<u32>,
}

impl Model for Partial {
    ghost use Rattle.std.specs.Prelude.{List, ℕ};

    ghost Value = { List ℕ };

    ghost view = { λ p. p.ids.items };
}

impl Partial {
    /// The counts of a list. It takes no memory.
    pub fn of(ids: Vec<u32>) -> Partial
        ensures { result ≡ ids.items }
    {
        Partial { ids }
    }

    /// The list.
    pub fn ids(&self) -> &[u32]
        ensures { result.now ≡ self.now }
    {
        self.ids.as_slice()
    }

    /// How often a number is in the list, which may be never. It reads the whole list.
    pub fn get(&self, id: u32) -> u64
        ensures { result ≡ plain self.now id }
    {
        let ids = self.ids();
        let mut count = 0;
        for at in 0..ids.len() {
            if ids[at] == id {
                count += 1;
            }
        }
        count
    }
}
