// The order of a sheet's three columns.
ghost use Rattle.std.specs.Prelude.{◌≡◌};
ghost use Rattle.std.specs.Option.{ok_or};
ghost use Rattle.sheet.specs.Columns.{name_line, columns_of, arc_of};
ghost use Rattle.terms.specs.declared.fault.LineFault.TheVariants.{Names};

use terms::arc::Arc;
use terms::fault::LineFault;

#[derive(Clone, Copy, Debug, PartialEq, Eq)]
pub enum Columns {
    FromToLeast,
    FromLeastTo,
    ToFromLeast,
    ToLeastFrom,
    LeastFromTo,
    LeastToFrom,
}

impl Columns {
    // The line of names that says this order: bytes, and not a Display, since it is compared with a text's bytes.
    pub fn names(self) -> &'static [u8]
        ensures { result.now ≡ name_line self }
    {
        match self {
            Columns::FromToLeast => b"from to least",
            Columns::FromLeastTo => b"from least to",
            Columns::ToFromLeast => b"to from least",
            Columns::ToLeastFrom => b"to least from",
            Columns::LeastFromTo => b"least from to",
            Columns::LeastToFrom => b"least to from",
        }
    }

    // The arc of a line whose values, in the order typed, are these.
    pub fn arc(self, first: u32, second: u32, third: u32) -> Arc
        ensures { result ≡ arc_of self first second third }
    {
        let (tail, head, least) = match self {
            Columns::FromToLeast => (first, second, third),
            Columns::FromLeastTo => (first, third, second),
            Columns::ToFromLeast => (second, first, third),
            Columns::ToLeastFrom => (third, first, second),
            Columns::LeastFromTo => (second, third, first),
            Columns::LeastToFrom => (third, second, first),
        };
        Arc { tail, head, least }
    }
}

// The order that a line of names says, if it is one.
impl TryFrom<&[u8]> for Columns {
    type Error = LineFault;

    ghost try_from_gives = { λ line r. r ≡ ok_or (columns_of line.now) Names };

    #[tactic(auto, unfolding(crate::specs::Columns::columns_of))]
    fn try_from(line: &[u8]) -> Result<Columns, LineFault> {
        const ALL: [Columns; 6] = [
            Columns::FromToLeast,
            Columns::FromLeastTo,
            Columns::ToFromLeast,
            Columns::ToLeastFrom,
            Columns::LeastFromTo,
            Columns::LeastToFrom,
        ];
        ALL.iter()
            .copied()
            .find(|columns| line == columns.names())
            .ok_or(LineFault::Names)
    }
}
