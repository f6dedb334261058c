// Reads the cases. How they are written is said where they stand, at the head of the input.
ghost use Rattle.std.specs.Prelude.{◌≡◌, ◌+◌, OnOk, IfOk, vec_len, count_by, if◌then◌else◌};
ghost use Rattle.std.specs.Str.Lines.{lines};
ghost use Rattle.session_cases.specs.Reading.{begins_case};

use crate::case::{Case, Over};
use anyhow::{Context, bail, ensure};
use std::alloc::Global;
use std::io::Write;

// The first word of a line, and what stands behind its space.
fn first_word(line: &str) -> (&str, &str) {
    line.split_once(' ').unwrap_or((line, ""))
}

// Puts what the words in braces stand for, in a line that came so many times before.
fn put_named(out: &mut Vec<u8>, words: &str, before: u32) -> anyhow::Result<()> {
    match words.strip_suffix("..") {
        Some(first) => {
            let first = first.parse::<u32>()?;
            let number = first.checked_add(before).context("a number is too large")?;
            write!(out, "{number}")?;
        }
        None => out.push(words.parse::<u8>()?)?,
    }
    Ok(())
}

fn put_plain(out: &mut Vec<u8>, plain: &str) -> anyhow::Result<()> {
    ensure!(!plain.contains('}'), "a brace that was not opened");
    out.extend_from_slice(plain.as_bytes())?;
    Ok(())
}

fn put_text(out: &mut Vec<u8>, text: &str, before: u32) -> anyhow::Result<()> {
    let mut parts = text.split('{');
    if let Some(plain) = parts.next() {
        put_plain(out, plain)?;
    }
    for part in parts {
        let (words, plain) = part.split_once('}').context("a brace is not closed")?;
        put_named(out, words, before)?;
        put_plain(out, plain)?;
    }
    Ok(())
}

// Puts a line so many times, each with the same end.
fn put_lines(out: &mut Vec<u8>, times: u32, text: &str, end: &str) -> anyhow::Result<()> {
    for before in 0..times {
        put_text(out, text, before)?;
        out.extend_from_slice(end.as_bytes())?;
    }
    Ok(())
}

impl Case {
    // Puts a line so many times, where its mark says.
    fn put(&mut self, times: u32, mark: &str, text: &str) -> anyhow::Result<()> {
        match mark {
            ">" | ">>" if !self.text.is_empty() => bail!("a line of the file behind the output"),
            ">" => put_lines(&mut self.file, times, text, "\n"),
            ">>" => put_lines(&mut self.file, times, text, ""),
            "<" => put_lines(&mut self.text, times, text, "\n"),
            _ => bail!("no line of a case"),
        }
    }

    // Reads a line behind the case's name.
    fn read(&mut self, line: &str) -> anyhow::Result<()> {
        let (word, rest) = first_word(line);
        match word {
            "over:" | "slips:" if !self.file.is_empty() => bail!("a heading behind the file"),
            "over:" => {
                let places = rest.strip_prefix("a queue of ").context("no queue")?;
                self.over = Over::Queue(places.parse()?);
            }
            "slips:" => self.room = rest.parse()?,
            _ => match word.parse() {
                Ok(times) => {
                    let (mark, text) = first_word(rest);
                    self.put(times, mark, text)?;
                }
                Err(_) => self.put(1, word, rest)?,
            },
        }
        Ok(())
    }
}

fn read_line(heap: Global, cases: &mut Vec<Case>, line: &str) -> anyhow::Result<()>
    ensures { let more = if begins_case line.now then 1 else 0 in
        OnOk result (vec_len cases.new ≡ vec_len cases.old + more) }
{
    ensure!(!line.ends_with(' '), "a space at the end");
    if line.is_empty() || line.starts_with('#') {
        return Ok(());
    }
    match line.strip_prefix("case: ") {
        Some(name) => cases.push(Case::new(heap, name)?)?,
        None => cases.last_mut().context("no case has begun")?.read(line)?,
    }
    Ok(())
}

/// The cases that an input writes. Errors: the input breaks the form of the cases, or there is no memory.
pub fn read_cases(heap: Global, input: &str) -> anyhow::Result<Vec<Case>>
    ensures { IfOk result (λ cases. vec_len cases ≡ count_by begins_case (lines input.now)) }
{
    ensure!(!input.contains('\r'), "byte 13 is written in braces");
    let mut cases = Vec::new(heap);
    for (before, line) in input.lines().enumerate() {
        let number = before.saturating_add(1);
        read_line(heap, &mut cases, line).context(format_args!("line {number}"))?;
    }
    Ok(cases)
}
