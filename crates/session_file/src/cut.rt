ghost use Rattle.std.specs.Prelude.{◌≡◌};
ghost use Rattle.std.specs.List.{position};
ghost use Rattle.session_file.specs.Cut.{cut, is, parts};

fn position_of(text: &[u8], mark: u8) -> Option<usize>
    ensures { result ≡ position (is mark) text.now }
{
    text.iter().position(|b| *b == mark)
}

/// What stands before the first mark, and what behind it.
pub fn cut_at(text: &[u8], mark: u8) -> Option<(&[u8], &[u8])>
    ensures { parts result ≡ cut mark text.now }
{
    let at = position_of(text, mark)?;
    Some((&text[..at], &text[at + 1..]))
}
