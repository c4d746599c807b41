// The sum of a list of arcs.
ghost use Rattle.std.specs.Prelude.{◌≡◌, ℕ, ◌≤◌, length, if◌then◌else◌, Some, None, Ok, Err, nat_lt, slice_index};
ghost use Rattle.method.specs.Calls.{capped_sum};
ghost use Rattle.method.specs.Turns.{all_of};
ghost use Rattle.terms.specs.declared.refusal.Refusal.TheVariants.{NoSuchArc};

use terms::amount::capped_sum;
use terms::refusal::Refusal;

// What these arcs cost together; declined if one is no arc.
pub(crate) fn total(arcs: &[u32], costs: &[u32]) -> Result<u32, Refusal>
    ensures { result ≡ (if all_of (λ j. nat_lt j (length costs.now)) arcs.now then Ok (capped_sum (λ j. slice_index costs.now j) arcs.now) else Err NoSuchArc) }
{
    let mut sum = 0;
    for arc in arcs {
        let cost = costs.get(*arc as usize).ok_or(Refusal::NoSuchArc)?;
        sum = capped_sum(sum, *cost);
    }
    Ok(sum)
}
