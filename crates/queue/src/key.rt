// The planner's key: a pair of numbers.
ghost use Rattle.std.specs.Prelude.{◌≡◌, true, ℕ};
ghost use Rattle.std.specs.Ordering.{nat_cmp};
ghost use Rattle.std.proofs.Common.{ap};
ghost use Rattle.std.proofs.lemmas.Map.Lookups.{exact_pairs, exact_unsigned};
ghost use Rattle.queue.specs.Keys.{key_cmp, key_upto};

use crate::entry::Entry;
use crate::order::TotalOrder;

#[derive(Clone, Copy, Debug, Default, PartialEq, Eq, PartialOrd, Ord)]
pub struct Key {
    pub first: u64,
    pub second: u32,
}

impl Key {
    // Whether this key comes before the other one or equals it: firsts are compared, then seconds.
    pub fn at_most(self, other: Key) -> bool
        ensures order { result ≡ key_upto self other }
        ensures cmp { ⟦<Key as Ord>⟧.cmp self other ≡ key_cmp self other }
        ensures one { result ≡ true → key_upto other self ≡ true → self ≡ other }
    {
        self <= other
    }
}

impl TotalOrder for Key {
    ghost antisymmetric = { λ a b e. ap (λ (p : ℕ × ℕ). record { first = p.0; second = p.1 }) (exact_pairs nat_cmp nat_cmp exact_unsigned exact_unsigned (a.first, a.second) (b.first, b.second) e) };

    fn at_most(self, other: Key) -> bool {
        self <= other
    }
}

// The most bytes that the planner's entry may take.
const _: () = prove!(std::mem::size_of::<Entry<Key>>() <= 32);
