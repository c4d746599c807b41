// Numbers typed in a row, single spaces between them.
ghost use Rattle.std.specs.Prelude.{◌≡◌, length, MatchOption};
ghost use Rattle.std.specs.Option.{option_map, option_and_then};
ghost use Rattle.text.specs.Pieces.{fields_of};
ghost use Rattle.callline.specs.CallLines.{numbers_in, exactly};

use text::fields::Fields;
use text::number::number;

// How many numbers are typed, if each field writes one.
pub fn count(text: &[u8]) -> Option<usize>
    ensures { result ≡ option_map length (numbers_in (fields_of text.now)) }
{
    let mut count = 0;
    for field in Fields::new(text) {
        number(field).ok()?;
        count += 1;
    }
    Some(count)
}

// The numbers that are typed, if there are as many as the list has places.
pub fn read(text: &[u8], list: &mut [u32]) -> Option<()>
    ensures { let typed = option_and_then (exactly (length list.old)) (numbers_in (fields_of text.now)) in MatchOption result (typed ≡ None) (λ _. typed ≡ Some list.new) }
{
    let mut fields = Fields::new(text);
    for place in list.iter_mut() {
        *place = number(fields.next()?).ok()?;
    }
    fields.next().is_none().then_some(())
}

// Just N numbers.
pub fn numbers<const N: usize>(text: &[u8]) -> Option<[u32; N]>
    ensures { result ≡ option_and_then (exactly N) (numbers_in (fields_of text.now)) }
{
    let mut numbers = [0; N];
    read(text, &mut numbers)?;
    Some(numbers)
}
