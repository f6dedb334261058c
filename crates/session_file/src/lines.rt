// A file, cut into lines as they are read.
ghost use Rattle.std.specs.Prelude.{◌≡◌, ◌+◌, ◌≤◌, length};

use crate::cut::cut_at;
use crate::fault::Fault;
use crate::number::read_number;
use crate::reader::read_call;
use book::call::Call;

/// The most bytes of a file.
pub const LONGEST: usize = 65_536;

/// What is left of a file, and the number of the first line of it.
#[derive(Clone, Copy)]
pub struct Lines<'a> {
    rest: &'a [u8],
    line: u32,
    ghost few: { line + length rest.now ≤ 65537 },
}

/// The lines of the first section.
#[derive(Clone, Copy, Debug, PartialEq, Eq)]
pub struct TermsSection {
    pub reference: u32,
    pub block: u32,
}

impl<'a> Lines<'a> {
    ghost use Rattle.session_file.specs.Lines.{ahead_in, ahead_of, cut_off, found, first_ahead, first_line, number_line, call_line, terms_section, ending};

    /// All lines of a file. Errors: it has more than `LONGEST` bytes, which is a fault in line 0.
    pub fn new(file: &'a [u8]) -> Result<Lines<'a>, Fault>
        ensures { ahead_of result ≡ first_ahead file.now }
    {
        if file.len() > LONGEST {
            return Err(Fault::in_line(0));
        }
        Ok(Lines {
            rest: file,
            line: 1,
        })
    }

    fn first_line(self) -> Result<(&'a [u8], Lines<'a>), Fault>
        ensures { cut_off result ≡ first_line (ahead_in self.entry) }
    {
        let (line, rest) = cut_at(self.rest, b'\n').ok_or(Fault::in_line(self.line))?;
        let behind = Lines {
            rest,
            line: self.line + 1,
        };
        Ok((line, behind))
    }

    /// The number that the first line is, and the lines behind it. Errors: the line is none.
    pub fn next_number(self) -> Result<(u32, Lines<'a>), Fault>
        ensures { found result ≡ number_line (ahead_in self.entry) }
    {
        let (line, behind) = self.first_line()?;
        let n = read_number(line).ok_or(Fault::in_line(self.line))?;
        Ok((n, behind))
    }

    /// The call that the first line reads as, and the lines behind it. Errors: it reads as none.
    pub fn next_call(self) -> Result<(Call, Lines<'a>), Fault>
        ensures { found result ≡ call_line (ahead_in self.entry) }
    {
        let (line, behind) = self.first_line()?;
        let call = read_call(line).ok_or(Fault::in_line(self.line))?;
        Ok((call, behind))
    }

    /// The section of the terms, and the lines behind it. Errors: the first of its lines that breaks the form.
    pub fn next_terms(self) -> Result<(TermsSection, Lines<'a>), Fault>
        ensures { found result ≡ terms_section (ahead_in self.entry) }
    {
        let (count, behind) = self.next_number()?;
        if count != 2 {
            return Err(Fault::in_line(self.line));
        }
        let (reference, behind) = behind.next_number()?;
        let (block, behind) = behind.next_number()?;
        Ok((TermsSection { reference, block }, behind))
    }

    /// Errors: something is left behind the last call.
    pub fn end(self) -> Result<(), Fault>
        ensures { result ≡ ending (ahead_in self.entry) }
    {
        if self.rest.is_empty() {
            Ok(())
        } else {
            Err(Fault::in_line(self.line))
        }
    }
}
