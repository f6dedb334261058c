// Answers the session file that is its standard input, over a queue of 128 places for each side.
#![tactic(auto)]

ghost use Rattle.std.specs.Prelude.{◌≡◌, IfOk, OnOk, IfSome};
ghost use Rattle.std.specs.Io.KnownBytes.{Appends};
ghost use Rattle.std.specs.String.{string_bytes};
ghost use Rattle.session_file.specs.Answered.{file_text};
ghost use Rattle.session_file.specs.Lawful.{AnsweredLawfully};

use book::slip::Slip;
use rules::order::{Direction, Order};
use session_file::answer::answer_file;
use session_file::lines::LONGEST;
use std::alloc::{AllocError, Global};
use std::io::{self, Read, Write};
use tables::queue::Queue;

// The text that a file is answered with; where it says accepted terms and calls, that of a lawful journal.
fn answer(heap: Global, file: &[u8]) -> Result<String, AllocError>
    ensures lawful { IfOk result
        (λ text. AnsweredLawfully record { places = 128 } 512 file.now (string_bytes text)) }
    ensures exact { IfOk result
        (λ text. string_bytes text ≡ file_text record { places = 128 } 512 file.now) }
{
    let mut places = [Order::limit(0, 0, Direction::Buy, 0, 0); 256];
    let slip = Slip::Lapse {
        number: 0,
        volume: 0,
    };
    let run = Vec::from_slice(heap, &[slip; 512])?;
    answer_file(heap, file, Queue::new(&mut places), run)
}

// Reads a file and writes the text that it is answered with. Of a file that is too long, one byte too many is read.
fn serve<R: Read + Drop, W: Write>(heap: Global, reader: R, writer: &mut W) -> anyhow::Result<()>
    ensures { OnOk result
        (IfSome (R.remaining reader)
        (λ file. Appends (W.contents writer.old) (W.contents writer.new)
        (file_text record { places = 128 } 512 file))) }
{
    let mut file = Vec::new(heap);
    reader.take(LONGEST as u64 + 1).read_to_end(&mut file)?;
    let text = answer(heap, &file)?;
    write!(writer, "{text}")?;
    Ok(())
}

fn main(rt: HostRuntime) -> anyhow::Result<()> {
    serve(rt.alloc(), rt.reader(), &mut io::writer(&rt))
}
