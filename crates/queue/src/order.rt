// The order of keys: std's, and two keys that compare as equal are the same.
ghost use Rattle.std.specs.Ordering.{is_le};
ghost use Rattle.std.specs.Prelude.{◌≡◌};
ghost use Rattle.std.specs.declared.cmp.Ordering.TheVariants.{Equal};
ghost use Rattle.std.proofs.lemmas.Map.Lookups.{exact_unsigned};

pub trait TotalOrder: Ord + Copy {
    // Whether this key comes before the other one or equals it: what a contest in an exact queue's tree asks.
    fn at_most(self, other: Self) -> bool
        ensures { result ≡ is_le (Self.cmp self other) };

    ghost antisymmetric: { (a b : Self) → Self.cmp a b ≡ Equal → a ≡ b };
}

impl TotalOrder for u32 {
    ghost antisymmetric = { exact_unsigned };

    fn at_most(self, other: u32) -> bool {
        self <= other
    }
}
