// One entry of the table that a queue works in.
ghost use Rattle.std.specs.Prelude.{◌≡◌, ℕ, true, length, replicate, Some, None, Option, is_none};
ghost use Rattle.queue.specs.Content.{free_entry, item_of, strayed_of};
ghost use Rattle.queue.specs.Sound.{under};

// What stands in a slot, if anything. The mark says that an entry whose home is this slot may stand in another. It and the number lie before the key, where the tag leaves
// room: so the planner's entry takes 32 bytes.
#[derive(Clone, Copy)]
enum Slot<K> {
    Free { strayed: bool },
    Taken { strayed: bool, number: u32, key: K },
}

#[derive(Clone, Copy)]
pub struct Entry<K> {
    slot: Slot<K>,
    // the slot that wins at the node of this entry's index
    pub(crate) winner: usize,
}

impl<K> Entry<K> {
    // A free entry, to make a table of.
    pub fn free() -> Self
        ensures { result ≡ free_entry }
    {
        Entry {
            slot: Slot::Free { strayed: false },
            winner: 0,
        }
    }

    // Whether nothing stands here.
    pub(crate) fn is_free(&self) -> bool
        ensures { result ≡ is_none (item_of self.now) }
    {
        matches!(self.slot, Slot::Free { .. })
    }

    // Whether a key stands here under the number. A free slot is told first, as by `is_free`, so that a scan which asks both looks once.
    #[tactic(auto, unfolding(crate::specs::Sound::under))]
    pub(crate) fn holds(&self, number: u32) -> bool
        ensures { result ≡ under (item_of self.now) number }
    {
        match self.slot {
            Slot::Free { .. } => false,
            Slot::Taken { number: n, .. } => n == number,
        }
    }

    // Whether an entry whose home is this slot may stand in another.
    pub(crate) fn is_strayed(&self) -> bool
        ensures { result ≡ strayed_of self.now }
    {
        match self.slot {
            Slot::Free { strayed } | Slot::Taken { strayed, .. } => strayed,
        }
    }

    // Marks this slot as the home of an entry that stands in another.
    pub(crate) fn stray(&mut self)
        ensures item { item_of self.new ≡ item_of self.old }
        ensures winner { self.new.winner ≡ self.old.winner }
        ensures strayed { strayed_of self.new ≡ true }
    {
        match &mut self.slot {
            Slot::Free { strayed } => *strayed = true,
            Slot::Taken { strayed, .. } => *strayed = true,
        }
    }
}

impl<K> Default for Entry<K> {
    ghost is_default = { λ e. e ≡ free_entry };

    fn default() -> Self {
        Entry::free()
    }
}

impl<K: Copy> Entry<K> {
    // What stands here: a number and its key.
    pub(crate) fn item(&self) -> Option<(u32, K)>
        ensures { result ≡ item_of self.now }
    {
        match self.slot {
            Slot::Taken { number, key, .. } => Some((number, key)),
            Slot::Free { .. } => None,
        }
    }

    // The same entry with something else standing here.
    pub(crate) fn with(self, item: Option<(u32, K)>) -> Self
        ensures item { item_of result ≡ item }
        ensures winner { result.winner ≡ self.winner }
        ensures strayed { strayed_of result ≡ strayed_of self }
    {
        let strayed = self.is_strayed();
        let slot = match item {
            Some((number, key)) => Slot::Taken {
                strayed,
                number,
                key,
            },
            None => Slot::Free { strayed },
        };
        Entry { slot, ..self }
    }
}

// Wipes a table: whatever a queue left in it is gone.
pub fn wipe<K: Copy>(entries: &mut [Entry<K>])
    ensures { entries.new ≡ replicate (length entries.old) free_entry }
{
    entries.fill(Entry::free());
}
