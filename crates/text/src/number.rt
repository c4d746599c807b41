// The number that a field writes.
ghost use Rattle.std.specs.Prelude.{◌≡◌, ◌≤◌, true, length};
ghost use Rattle.std.specs.Char.{is_ascii_digit};
ghost use Rattle.std.specs.List.{list_all};
ghost use Rattle.std.specs.Option.{SomeIff};
ghost use Rattle.std.specs.Str.Parse.{digits_value};
ghost use Rattle.terms.specs.Amounts.{far};
ghost use Rattle.text.specs.Numbers.{number_of};

use terms::fault::NumberFault;

fn all_digits(field: &[u8]) -> bool
    ensures { result ≡ list_all is_ascii_digit field.now }
{
    field.iter().all(u8::is_ascii_digit)
}

// What at most ten digits write, if it is at most FAR. Not by `parse`, which tests once more what is known of the digits.
fn value(digits: &[u8]) -> Option<u32>
    requires digits { list_all is_ascii_digit digits.now ≡ true }
    requires few { length digits.now ≤ 10 }
    ensures { SomeIff result (digits_value 10 digits.now ≤ far) (digits_value 10 digits.now) }
{
    let mut value: u64 = 0;
    for digit in digits {
        value = value * 10 + u64::from(*digit - b'0');
    }
    u32::try_from(value).ok()
}

// The number of a field of one to ten digits that is at most FAR; else the first fault that fits.
#[tactic(auto, using(std::proofs::lemmas::Bool::Decides::nat_tests), unfolding(crate::specs::Numbers::number_of))]
pub fn number(field: &[u8]) -> Result<u32, NumberFault>
    ensures { result ≡ number_of field.now }
{
    if field.is_empty() {
        return Err(NumberFault::Empty);
    }
    if !all_digits(field) {
        return Err(NumberFault::NotADigit);
    }
    if field.len() > 10 {
        return Err(NumberFault::TooLarge);
    }
    value(field).ok_or(NumberFault::TooLarge)
}
