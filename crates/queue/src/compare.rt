// How the contests in a queue's tree compare keys.
ghost use Rattle.std.specs.Ordering.{is_le};
ghost use Rattle.std.specs.Prelude.{◌≡◌};

use crate::order::TotalOrder;

pub trait Compare<K: Ord> {
    // Whether the first key comes before the second or equals it.
    fn at_most(a: K, b: K) -> bool
        ensures { result ≡ is_le (K.cmp a b) };
}

// By std's order.
pub struct ByOrd;

impl<K: Ord + Copy> Compare<K> for ByOrd {
    fn at_most(a: K, b: K) -> bool {
        a <= b
    }
}

// By the keys' own `at_most`.
pub struct Exact;

impl<K: TotalOrder> Compare<K> for Exact {
    fn at_most(a: K, b: K) -> bool {
        a.at_most(b)
    }
}
