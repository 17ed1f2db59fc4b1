// One job run: buffers of the lengths asked for are lent, and every word of them is looked at afterwards.
ghost use Rattle.std.specs.Prelude.{◌≤◌};

use crate::{lent, print};
use std::alloc::Global;
use std::io;

// The budget, and how many words of each buffer are lent.
#[derive(Clone, Copy)]
struct Lent {
    budget: u64,
    result: usize,
    sets: usize,
    files: usize,
    indexes: usize,
}

// The four bytes from a place on, lowest first.
fn four(rest: &[u8; 24], at: usize) -> u32
    requires { at ≤ 20 }
{
    u32::from_le_bytes([rest[at], rest[at + 1], rest[at + 2], rest[at + 3]])
}

// What part BU asks for.
fn asked(rest: &[u8; 24]) -> Lent {
    Lent {
        budget: u64::from(four(rest, 0)) + (u64::from(four(rest, 4)) << 32),
        result: four(rest, 8) as usize,
        sets: four(rest, 12) as usize,
        files: four(rest, 16) as usize,
        indexes: four(rest, 20) as usize,
    }
}

// How many words of a work buffer are to be 0 after an answer: those named, and none under number 1.
fn zeros(number: u8, named: usize) -> usize {
    if number == 1 { 0 } else { named }
}

// The values in rows of so many columns; in over 256 rows or 4 columns, which no result holds, none.
fn values(rows: usize, columns: usize) -> usize
    ensures { result ≤ 1024 }
{
    if rows > 256 || columns > 4 {
        return 0;
    }
    rows * columns
}

// How many words of the result the rows of an answer take.
fn taken(a: model::Answer) -> usize {
    if a.number != 0 {
        return 0;
    }
    2 * values(a.rows, a.columns)
}

// The engine's answer, with so many words of each buffer lent.
fn lend(
    words: &[i32],
    question: &[u8],
    plan: &[u8],
    l: Lent,
    sets: &mut [i64],
    files: &mut [i64],
    indexes: &mut [u16],
    res: &mut [i64],
) -> model::Answer {
    let n = l.sets.min(sets.len());
    let m = l.files.min(files.len());
    let k = l.indexes.min(indexes.len());
    let r = l.result.min(res.len());
    engine::run(
        words,
        question,
        plan,
        l.budget,
        &mut sets[..n],
        &mut files[..m],
        &mut indexes[..k],
        &mut res[..r],
    )
}

// Whether every buffer is as the engine's contract has it after an answer.
fn is_right(a: model::Answer, sets: &[i64], files: &[i64], indexes: &[u16], res: &[i64]) -> bool {
    lent::zeroed(sets, zeros(a.number, 8192))
        & lent::zeroed(files, zeros(a.number, 8192))
        & lent::zeroed(indexes, zeros(a.number, 1280))
        & lent::kept(res, taken(a))
}

// The answer, and a line where a buffer is not right.
fn tell(
    rt: &impl Print,
    alloc: Global,
    a: model::Answer,
    sets: &[i64],
    files: &[i64],
    indexes: &[u16],
    res: &[i64],
) -> io::Result<()> {
    print::answer(rt, alloc, a, res)?;
    if !is_right(a, sets, files, indexes, res) {
        println!(rt; "changed")?;
    }
    Ok(())
}

// Every buffer as it is before a run.
fn fill(sets: &mut [i64], files: &mut [i64], indexes: &mut [u16], res: &mut [i64]) {
    lent::fill(sets);
    lent::fill(files);
    lent::fill(indexes);
    lent::fill(res);
}

// A run with these buffers, and what is told of it.
fn with_buffers(
    rt: &impl Print,
    alloc: Global,
    words: &[i32],
    question: &[u8],
    plan: &[u8],
    l: Lent,
    sets: &mut [i64],
    files: &mut [i64],
    indexes: &mut [u16],
    res: &mut [i64],
) -> io::Result<()> {
    fill(sets, files, indexes, res);
    let a = lend(words, question, plan, l, sets, files, indexes, res);
    tell(rt, alloc, a, sets, files, indexes, res)
}

// A job with the contents of its part BU. Buffers longer than those here are cut.
pub(crate) fn job(
    rt: &impl Print,
    alloc: Global,
    words: &[i32],
    question: &[u8],
    plan: &[u8],
    rest: &[u8; 24],
) -> io::Result<()> {
    let mut sets = vec![in alloc; 0; 8200]?;
    let mut files = vec![in alloc; 0; 8200]?;
    let mut indexes = vec![in alloc; 0; 1288]?;
    let mut result = vec![in alloc; 0; 2056]?;
    with_buffers(
        rt,
        alloc,
        words,
        question,
        plan,
        asked(rest),
        &mut sets,
        &mut files,
        &mut indexes,
        &mut result,
    )
}
