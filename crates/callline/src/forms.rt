// The calls whose letter comes with a fixed count of numbers.
ghost use Rattle.std.specs.Prelude.{◌≡◌};
ghost use Rattle.std.specs.Option.{option_map, option_and_then};
ghost use Rattle.text.specs.Pieces.{fields_of};
ghost use Rattle.callline.specs.CallLines.{numbers_in, form_of, told};

use crate::numbers::numbers;
use terms::call::Call;

// The call of a letter, whose numbers are typed in `text`.
pub fn form(letter: u8, text: &[u8]) -> Option<Call<usize>>
    ensures { result ≡ option_map told (option_and_then (form_of letter) (numbers_in (fields_of text.now))) }
{
    match letter {
        b'b' => {
            let [here, landing, slack] = numbers::<3>(text)?;
            Some(Call::Begin {
                here,
                landing,
                slack,
            })
        }
        b'c' => {
            let [arc, cost] = numbers::<2>(text)?;
            Some(Call::Set { arc, cost })
        }
        b'h' => {
            let [place] = numbers::<1>(text)?;
            Some(Call::Move { place })
        }
        b's' => {
            let [slack] = numbers::<1>(text)?;
            Some(Call::Stretch { slack })
        }
        b'r' => {
            let [turns] = numbers::<1>(text)?;
            let turns = u16::try_from(turns).ok()?;
            Some(Call::Search { turns })
        }
        _ => None,
    }
}
