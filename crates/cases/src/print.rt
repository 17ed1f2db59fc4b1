// Lines of text.
use std::alloc::Global;
use std::io;
use std::io::Write;

// The four figures of an answer.
fn figures(rt: &impl Print, a: model::Answer) -> io::Result<()> {
    println!(rt; "{} {} {} {}", a.number, a.rows, a.columns, a.trials)
}

// The first n bytes, a listing's text, with 0 for its "ok".
fn with_zero(rt: &impl Print, out: &mut [u8], n: usize) -> io::Result<()> {
    if n > out.len() {
        return Ok(());
    }
    if n > 1 {
        out[1] = b'0';
        io::writer(rt).write_all(&out[1..n])?;
    }
    Ok(())
}

// The figures and the rows of an accepted answer.
fn accepted(rt: &impl Print, alloc: Global, a: model::Answer, words: &[i64]) -> io::Result<()> {
    let mut out = vec![in alloc; 0; 65536]?;
    let n = job::print_answer(a, words, &mut out);
    with_zero(rt, &mut out, n)
}

// The figures of an answer, and its rows from the result's words.
pub(crate) fn answer(
    rt: &impl Print,
    alloc: Global,
    a: model::Answer,
    words: &[i64],
) -> io::Result<()> {
    if a.number == 0 {
        accepted(rt, alloc, a, words)
    } else {
        figures(rt, a)
    }
}
