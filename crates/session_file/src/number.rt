// The numbers of a session file.
ghost use Rattle.std.specs.Prelude.{◌≡◌, ◌≤◌, ◌↔◌, ℕ, Some, length};
ghost use Rattle.session_file.specs.Grammar.{Number};
ghost use Rattle.session_file.specs.Reading.{number_of, read_after};

// Nine digits fit 32 bits.
fn digits(field: &[u8]) -> Option<u32>
    requires { length field.now ≤ 9 }
    ensures { result ≡ read_after 0 field.now }
{
    let mut value: u32 = 0;
    for b in field {
        value = value * 10 + char::from(*b).to_digit(10)?;
    }
    Some(value)
}

/// A number of one to nine digits with no needless leading zero.
pub fn read_number(field: &[u8]) -> Option<u32>
    ensures grammar { (n : ℕ) → (result ≡ Some n) ↔ Number n field.now }
    ensures value { result ≡ number_of field.now }
{
    match field {
        [] | [b'0', _, ..] => None,
        _ if field.len() > 9 => None,
        _ => digits(field),
    }
}
