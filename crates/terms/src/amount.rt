// Amounts: costs, and sums of costs, that stay at Far once they reach it.
ghost use Rattle.std.specs.Prelude.{◌≡◌};
ghost use Rattle.terms.specs.Amounts.{◌⊕◌};

// "Far": what a shut arc costs, and the value of a place that no open chain is known to reach.
pub const FAR: u32 = 4_294_967_295;

// The sum of two amounts, which stays at Far where it would pass it.
pub fn capped_sum(a: u32, b: u32) -> u32
    ensures { result ≡ a ⊕ b }
{
    a.saturating_add(b)
}
