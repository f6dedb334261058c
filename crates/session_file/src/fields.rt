// The fields of a line, one after the other.
ghost use Rattle.std.specs.Prelude.{◌≡◌};
ghost use Rattle.session_file.specs.Cut.{fields, left, is_empty, Taken};
ghost use Rattle.session_file.specs.Reading.{letter_of, side_of, limit_of};

use crate::cut::cut_at;
use crate::number::read_number;
use rules::order::Direction;

/// What is left of a line.
#[derive(Drop)]
pub struct Fields<'a> {
    // nothing after the last field
    rest: Option<&'a [u8]>,
}

impl<'a> Fields<'a> {
    /// All fields of a line: between any two of them stands one space.
    pub fn new(line: &'a [u8]) -> Fields<'a>
        ensures { left result ≡ fields line.now }
    {
        Fields { rest: Some(line) }
    }

    /// The next field, which is then taken; nothing once the last one is.
    pub fn next_field(&mut self) -> Option<&'a [u8]>
        ensures { Taken (left self.old) result (left self.new) }
    {
        let rest = self.rest?;
        match cut_at(rest, b' ') {
            Some((field, behind)) => {
                self.rest = Some(behind);
                Some(field)
            }
            None => {
                self.rest = None;
                Some(rest)
            }
        }
    }

    /// Whether the last field is taken.
    pub fn is_empty(&self) -> bool
        ensures { result ≡ is_empty (left self.now) }
    {
        self.rest.is_none()
    }
}

/// The letter that a field of one byte is.
pub fn read_letter(field: &[u8]) -> Option<char>
    ensures { result ≡ letter_of field.now }
{
    match field {
        [b] => Some(char::from(*b)),
        _ => None,
    }
}

/// The side that B or S names.
pub fn read_side(field: &[u8]) -> Option<Direction>
    ensures { result ≡ side_of field.now }
{
    match read_letter(field)? {
        'B' => Some(Direction::Buy),
        'S' => Some(Direction::Sell),
        _ => None,
    }
}

/// The limit price; none for the M of a market order.
pub fn read_limit(field: &[u8]) -> Option<Option<u32>>
    ensures { result ≡ limit_of field.now }
{
    match read_letter(field) {
        Some('M') => Some(None),
        _ => read_number(field).map(Some),
    }
}
