// Reads a script from standard input, a command a line, and answers each line.
#![tactic(auto)]

mod desk;
mod floor;
mod input;
mod reply;
mod trouble;
mod words;

use desk::Desk;
use input::Input;
use reply::Reply;
use std::io;
use std::io::{BufRead, BufReader, BufWriter, Read, Stdin, Stdout, Write};
use trouble::{Mistake, Trouble};

// A longer line is a mistake; only so much of it is shown.
const MOST_SHOWN: usize = 70_000;

// How much of the input is read at a time.
const PIECE: usize = 65_536;

// The next line without its line feed; of one too long, one byte more than is shown is kept.
fn next_line<'a>(
    input: &mut BufReader<Input<Stdin>>,
    line: &'a mut Vec<u8>,
) -> io::Result<Option<&'a [u8]>> {
    line.clear();
    let most = MOST_SHOWN as u64 + 1;
    if input.by_ref().take(most).read_until(b'\n', line)? == 0 {
        return Ok(None);
    }
    if line.last() == Some(&b'\n') {
        line.pop();
    } else if line.len() > MOST_SHOWN {
        input.skip_until(b'\n')?;
    }
    Ok(Some(line.as_slice()))
}

// Answers a line; empty lines and remarks are passed over.
fn answer(desk: &mut Desk, line: &[u8], out: &mut BufWriter<Stdout>) -> io::Result<()> {
    let answered = match line.first() {
        _ if line.len() > MOST_SHOWN => Err(Trouble::Mistake(Mistake::LineTooLong)),
        None | Some(b'#') => return Ok(()),
        Some(_) => desk.answer(line),
    };
    if let Err(Trouble::OutOfMemory(error)) = answered {
        return Err(error.into());
    }
    if let Ok(Reply::Book(book)) = &answered {
        write!(out, "{book}")?;
    }
    out.write_all(&line[..line.len().min(MOST_SHOWN)])?;
    match answered {
        Ok(reply) => writeln!(out, " -> {reply}"),
        Err(trouble) => writeln!(out, " -> {trouble}"),
    }
}

fn main(rt: HostRuntime) -> io::Result<()> {
    let heap = rt.alloc();
    let mut desk = Desk::new(heap);
    let mut line = Vec::new(heap);
    let mut input = BufReader::with_capacity(heap, PIECE, Input::new(rt.stdin()))?;
    let mut out = BufWriter::new(heap, rt.stdout())?;
    // counted, since no measure tells that an input ends; `split` would keep a line of any length
    for _ in 0..u64::MAX {
        let Some(line) = next_line(&mut input, &mut line)? else {
            break;
        };
        answer(&mut desk, line, &mut out)?;
    }
    out.flush()
}
