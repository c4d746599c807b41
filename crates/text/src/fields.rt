// The fields of a line, one after the other.
ghost use Rattle.std.specs.Prelude.{◌≡◌};
ghost use Rattle.std.specs.Iterator.{YieldsFirstRef, item_count};
ghost use Rattle.text.specs.Pieces.{fields_of};

use crate::cut::cut;
use std::marker::Model;

// Single spaces part them, so two spaces together, or one at an end of the line, make an empty field.
// Not std's `split`: its type has a closure in it, so no function could name it as its result.
#[derive(Drop)]
pub struct Fields<'a> {
    // what follows the last field that came out; nothing once the line is used up
    rest: Option<&'a [u8]>,
}

// The fields that are still to come.
impl<'a> Model for Fields<'a> {
    ghost use Rattle.std.specs.Prelude.{ℕ, List};
    ghost use Rattle.std.specs.Option.{option_map};
    ghost use Rattle.text.specs.Pieces.{fields_left};

    ghost Value = { List (List ℕ) };

    ghost view = { λ fields. fields_left (option_map (λ x. x.now) fields.rest) };
}

impl<'a> Fields<'a> {
    pub fn new(line: &'a [u8]) -> Fields<'a>
        ensures { result ≡ fields_of line.now }
    {
        Fields { rest: Some(line) }
    }
}

impl<'a> Iterator for Fields<'a> {
    type Item = &'a [u8];

    ghost next_gives = { YieldsFirstRef (λ fields. fields) };

    ghost remaining = { item_count (λ fields. fields) };

    fn next(&mut self) -> Option<&'a [u8]> {
        let (field, rest) = cut(b' ', self.rest?);
        self.rest = rest;
        Some(field)
    }
}
