// The jobs of the stream on standard input, one after another: parts DA, QU, PN and BU, to its end.
use crate::judge;
use std::alloc::Global;
use std::io::Read;
use stream::{StreamError, next_part};

// The contents of a part that follows another of the same job.
fn following(
    alloc: Global,
    stream: &mut impl Read,
    mark: [u8; 2],
    most: u32,
) -> Result<Vec<u8>, StreamError> {
    next_part(alloc, stream, mark, most)?.ok_or(StreamError::Malformed)
}

// The parts behind the data, of which nothing here needs BU, and the job's line.
fn with_words(
    rt: &impl Print,
    alloc: Global,
    stream: &mut impl Read,
    words: &[i32],
) -> Result<(), StreamError> {
    let question = following(alloc, stream, *b"QU", 4096)?;
    let plan = following(alloc, stream, *b"PN", 64)?;
    let rest = following(alloc, stream, *b"BU", 24)?;
    if rest.len() != 24 {
        return Err(StreamError::Malformed);
    }
    println!(rt; "{}", judge::number(words, &question, &plan))?;
    Ok(())
}

// The next job, and whether there was one.
fn next(rt: &impl Print, alloc: Global, stream: &mut impl Read) -> Result<bool, StreamError> {
    let Some(bytes) = next_part(alloc, stream, *b"DA", 4096)? else {
        return Ok(false);
    };
    if bytes.len() % 4 != 0 {
        return Err(StreamError::Malformed);
    }
    let mut words = vec![in alloc; 0; 1024]?;
    let n = job::words_of(&bytes, &mut words);
    with_words(rt, alloc, stream, &words[..n])?;
    Ok(true)
}

// Every job, a line each, and how many there are; a stream of over a million jobs counts as malformed.
pub(crate) fn all(
    rt: &impl Print,
    alloc: Global,
    stream: &mut impl Read,
) -> Result<u32, StreamError> {
    for jobs in 0..1000000 {
        if !next(rt, alloc, stream)? {
            return Ok(jobs);
        }
    }
    Err(StreamError::Malformed)
}
