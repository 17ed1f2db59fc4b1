// The texts of a stream of inputs on standard input, one behind the other: what the programs listing and budgeted print
// for each, by the same functions. An input has a head of six bytes: the mark LI or BJ, for the one program or the other,
// and a length of four bytes, the lowest first. A line at the end says how many inputs there are. A script in tests/
// computes the same text by the evaluator, apart from this code.
#![tactic(auto)]

ghost use Rattle.std.specs.Prelude.{◌≤◌, length};

use std::alloc::Global;
use std::io;
use std::io::{Read, Write};
use stream::StreamError;

// The most bytes that an input may have.
const LONGEST: u32 = 196660;

// Which of the two programs an input is for.
#[derive(Clone, Copy)]
enum Kind {
    Listing,
    // A budget stands behind the job.
    Budgeted,
}

impl TryFrom<[u8; 2]> for Kind {
    type Error = StreamError;

    fn try_from(mark: [u8; 2]) -> Result<Kind, StreamError> {
        match &mark {
            b"LI" => Ok(Kind::Listing),
            b"BJ" => Ok(Kind::Budgeted),
            _ => Err(StreamError::Malformed),
        }
    }
}

// The text for an input, and how many bytes it is.
fn text_for(kind: Kind, bytes: &[u8], out: &mut [u8]) -> usize
    ensures { result ≤ length out.old }
{
    match kind {
        Kind::Listing => reply::list(bytes, out),
        Kind::Budgeted => reply::reply_budgeted(bytes, out),
    }
}

// The text for an input, written.
fn answer(rt: &impl Print, alloc: Global, kind: Kind, bytes: &[u8]) -> io::Result<()> {
    let mut text = vec![in alloc; 0; 65536]?;
    let length = text_for(kind, bytes, &mut text);
    io::writer(rt).write_all(&text[..length])
}

// The text for the next input, and whether there was one.
fn next(rt: &impl Print, alloc: Global, stream: &mut impl Read) -> Result<bool, StreamError> {
    let Some(head) = stream::next_head(alloc, stream)? else {
        return Ok(false);
    };
    let kind = Kind::try_from(head.mark)?;
    let bytes = stream::contents(alloc, stream, head.length, LONGEST)?;
    answer(rt, alloc, kind, &bytes)?;
    Ok(true)
}

// Every input, and how many there are; a stream of over a million counts as malformed.
fn all(rt: &impl Print, alloc: Global, stream: &mut impl Read) -> Result<u32, StreamError> {
    for inputs in 0..1000000 {
        if !next(rt, alloc, stream)? {
            return Ok(inputs);
        }
    }
    Err(StreamError::Malformed)
}

// Every input, and a last line.
fn main(rt: HostRuntime) -> io::Result<()> {
    match all(&rt, rt.alloc(), &mut rt.reader()) {
        Ok(inputs) => println!(rt; "inputs: {inputs}"),
        Err(StreamError::Malformed) => println!(rt; "malformed stream"),
        Err(StreamError::Reading(e)) => Err(e),
    }
}
