// Where a file breaks its form.
ghost use Rattle.std.specs.Prelude.{◌≡◌};
ghost use Rattle.rules.specs.Refusal.{number};
ghost use Rattle.session_file.specs.Lines.{broken};

use rules::refusal::Refusal;

/// The refusal of a broken form, with its line. Line 0 stands for the whole of a file that is too long.
#[derive(Clone, Copy, Debug, PartialEq, Eq)]
pub struct Fault {
    pub refusal: Refusal,
    pub line: u32,
}

impl Fault {
    /// A broken form in this line.
    pub fn in_line(line: u32) -> Fault
        ensures value { result ≡ broken line }
        ensures refusal { number result.refusal ≡ 13 }
    {
        Fault {
            refusal: Refusal::BrokenForm,
            line,
        }
    }
}
