// The jobs of the stream on standard input, one after another: parts DA, QU, PN and BU, to its end.
use crate::run;
use std::alloc::Global;
use std::io::Read;
use stream::{StreamError, next_part};

// The contents of a part that follows another of the same job.
fn following(
    alloc: Global,
    stream: &mut impl Read,
    mark: [u8; 2],
    most: u32,
) -> Result<Vec<u8>, StreamError> {
    next_part(alloc, stream, mark, most)?.ok_or(StreamError::Malformed)
}

// The parts behind the data, and the run over its words.
fn with_words(
    rt: &impl Print,
    alloc: Global,
    stream: &mut impl Read,
    words: &[i32],
) -> Result<(), StreamError> {
    let question = following(alloc, stream, *b"QU", 65536)?;
    let plan = following(alloc, stream, *b"PN", 65536)?;
    let rest = following(alloc, stream, *b"BU", 24)?;
    let Ok(rest) = <[u8; 24]>::try_from(rest.as_slice()) else {
        return Err(StreamError::Malformed);
    };
    run::job(rt, alloc, words, &question, &plan, &rest)?;
    Ok(())
}

// The next job, and whether there was one; data of 16,385 words are one more than the engine takes.
fn next(rt: &impl Print, alloc: Global, stream: &mut impl Read) -> Result<bool, StreamError> {
    let Some(bytes) = next_part(alloc, stream, *b"DA", 65540)? else {
        return Ok(false);
    };
    if bytes.len() % 4 != 0 {
        return Err(StreamError::Malformed);
    }
    let mut words = vec![in alloc; 0; 16385]?;
    let n = job::words_of(&bytes, &mut words).min(words.len());
    with_words(rt, alloc, stream, &words[..n])?;
    Ok(true)
}

// Every job, its answer, and how many there are; a stream of over a million jobs counts as malformed.
pub(crate) fn all(
    rt: &impl Print,
    alloc: Global,
    stream: &mut impl Read,
) -> Result<u32, StreamError> {
    for jobs in 0..1000000 {
        if !next(rt, alloc, stream)? {
            return Ok(jobs);
        }
    }
    Err(StreamError::Malformed)
}
