// The call that a line writes.
ghost use Rattle.std.specs.Prelude.{◌≡◌, ◌↔◌, Some};
ghost use Rattle.book.specs.declared.call.Call.{Call};
ghost use Rattle.session_file.specs.Cut.{left};
ghost use Rattle.session_file.specs.Grammar.{Line};
ghost use Rattle.session_file.specs.Reading.{enter_of, alter_of, withdraw_of, advance_of, lettered_call, letter_of, taking, call_of};

use crate::fields::{Fields, read_letter, read_limit, read_side};
use crate::number::read_number;
use book::call::{Alteration, Call, NewOrder, Withdrawal};

fn enter(mut fields: Fields) -> Option<Call>
    ensures { result ≡ enter_of (left fields.entry) }
{
    let member = read_number(fields.next_field()?)?;
    let direction = read_side(fields.next_field()?)?;
    let limit = read_limit(fields.next_field()?)?;
    let volume = read_number(fields.next_field()?)?;
    fields.is_empty().then_some(Call::Enter(NewOrder {
        member,
        direction,
        limit,
        volume,
    }))
}

fn alter(mut fields: Fields) -> Option<Call>
    ensures { result ≡ alter_of (left fields.entry) }
{
    let member = read_number(fields.next_field()?)?;
    let number = read_number(fields.next_field()?)?;
    let price = read_number(fields.next_field()?)?;
    let volume = read_number(fields.next_field()?)?;
    fields.is_empty().then_some(Call::Alter(Alteration {
        member,
        number,
        price,
        volume,
    }))
}

fn withdraw(mut fields: Fields) -> Option<Call>
    ensures { result ≡ withdraw_of (left fields.entry) }
{
    let member = read_number(fields.next_field()?)?;
    let number = read_number(fields.next_field()?)?;
    fields
        .is_empty()
        .then_some(Call::Withdraw(Withdrawal { member, number }))
}

fn advance(fields: Fields) -> Option<Call>
    ensures { result ≡ advance_of (left fields.entry) }
{
    fields.is_empty().then_some(Call::Advance)
}

fn call(mut fields: Fields) -> Option<Call>
    ensures { result ≡ taking letter_of (left fields.entry) lettered_call }
{
    match read_letter(fields.next_field()?)? {
        'E' => enter(fields),
        'A' => alter(fields),
        'W' => withdraw(fields),
        'N' => advance(fields),
        _ => None,
    }
}

/// The call that a line reads as, if any.
pub fn read_call(line: &[u8]) -> Option<Call>
    ensures grammar { (call : Call) → (result ≡ Some call) ↔ Line call line.now }
    ensures value { result ≡ call_of line.now }
{
    call(Fields::new(line))
}
