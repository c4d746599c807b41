// The call that asks what typed arcs cost.
ghost use Rattle.std.specs.Prelude.{◌≡◌, length};
ghost use Rattle.std.specs.Option.{option_map, option_and_then};
ghost use Rattle.text.specs.Pieces.{fields_of};
ghost use Rattle.callline.specs.CallLines.{numbers_in, sum_of, told, list_with};

use crate::numbers::{count, read};
use terms::call::Call;

const MOST: usize = 256;

// The arcs are counted and checked first, so that the list is touched only where the call is one.
#[tactic(auto, using(crate::proofs::Reading::some_counted, std::proofs::lemmas::Bool::Decides::nat_tests))]
pub fn sum(text: &[u8], list: &mut [u32]) -> Option<Call<usize>>
    ensures answer { result ≡ option_map told (option_and_then (sum_of (length list.old)) (numbers_in (fields_of text.now))) }
    ensures list { list.new ≡ list_with (option_and_then (sum_of (length list.old)) (numbers_in (fields_of text.now))) list.old }
{
    let arcs = count(text)?;
    if arcs > MOST.min(list.len()) {
        return None;
    }
    read(text, &mut list[..arcs])?;
    Some(Call::Sum { arcs })
}
