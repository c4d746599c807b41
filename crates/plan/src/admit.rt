// What every call looks at first: whether the plan has begun, on a ground of this size, and whether the tables have room.
ghost use Rattle.std.specs.Prelude.{◌≡◌, nat_lt};
ghost use Rattle.std.specs.List.{list_any};
ghost use Rattle.plan.specs.Declines.{begun_as, begun_on};

use crate::header::Header;
use ground::ground::Ground;
use terms::refusal::Refusal;

// The header of a plan that has begun.
pub(crate) fn begun(header: Option<Header>) -> Result<Header, Refusal>
    ensures { result ≡ begun_as header }
{
    header.ok_or(Refusal::NotBegun)
}

// The header of a plan that has begun on a ground of this size.
pub(crate) fn begun_on<G: Ground>(header: Option<Header>, site: &G) -> Result<Header, Refusal>
    ensures { result ≡ begun_on header (G.Ground.meaning site.now) }
{
    let header = begun(header)?;
    if header.places != site.places() || header.arcs != site.arcs() {
        return Err(Refusal::OtherGround);
    }
    Ok(header)
}

// Whether one of these tables has fewer entries than it is to hold.
pub(crate) fn is_short(tables: &[(usize, u32)]) -> bool
    ensures { result ≡ list_any (λ t. nat_lt t.0 t.1) tables.now }
{
    tables
        .iter()
        .any(|(entries, needed)| *entries < *needed as usize)
}
