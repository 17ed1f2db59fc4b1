// Sets of rows: one at the ends of the numerators, one of drawn rows that grows too large, and whole buffers.
ghost use Rattle.std.specs.Prelude.{ℕ, ◌<◌, ◌≤◌, IfOk};

use crate::print;
use rows::{Fault, Place};
use std::io;
use value::Value;

// One for a row that is new.
fn is_new(a: Result<Place, Fault>) -> usize
    ensures { result ≤ 1 }
{
    match a {
        Ok(Place::New(_)) => 1,
        _ => 0,
    }
}

// A row of n columns put among count rows, and its line.
fn insert(
    rt: &impl Print,
    words: &mut [i64],
    n: usize,
    count: usize,
    row: &[i64],
) -> io::Result<usize>
    ensures { IfOk result (λ n. n ≤ 1) }
{
    print::say(rt, "insert")?;
    print::row(rt, row, n)?;
    let a = rows::insert(words, n, count, row);
    print::say(rt, " is ")?;
    print::added(rt, a)?;
    print::say(rt, "\n")?;
    Ok(is_new(a))
}

// A row of two values put among count rows.
fn insert_two(
    rt: &impl Print,
    words: &mut [i64],
    count: usize,
    x: Value,
    y: Value,
) -> io::Result<usize>
    ensures { IfOk result (λ n. n ≤ 1) }
{
    let mut row: [i64; 4] = [0; 4];
    words::write(&mut row, 0, x);
    words::write(&mut row, 1, y);
    insert(rt, words, 2, count, &row)
}

// A question and its answer.
fn answer(rt: &impl Print, text: &str, t: bool) -> io::Result<()> {
    print::say(rt, text)?;
    print::truth(rt, t)?;
    print::say(rt, "\n")
}

// An aggregate of a column of a set, and its line.
fn aggregate(
    rt: &impl Print,
    words: &[i64],
    n: usize,
    count: usize,
    f: u8,
    c: usize,
) -> io::Result<()> {
    print::say(rt, "aggregate ")?;
    print::number(rt, f as u64)?;
    print::place(rt, " of column ", c)?;
    print::place(rt, " of ", n)?;
    print::place(rt, ", rows ", count)?;
    print::say(rt, ", is ")?;
    print::aggregate(rt, aggregates::aggregate_of(words, n, count, f, c))?;
    print::say(rt, "\n")
}

// The five aggregates of a column.
fn aggregates(rt: &impl Print, words: &[i64], n: usize, count: usize, c: usize) -> io::Result<()> {
    aggregate(rt, words, n, count, 0, c)?;
    aggregate(rt, words, n, count, 1, c)?;
    aggregate(rt, words, n, count, 2, c)?;
    aggregate(rt, words, n, count, 3, c)?;
    aggregate(rt, words, n, count, 4, c)
}

// Rows at the ends of the numerators.
fn extremes(rt: &impl Print, words: &mut [i64]) -> io::Result<()> {
    let low = print::over(-16777216000000, 1);
    let high = print::over(16777216000000, 1);
    insert_two(rt, words, 0, high, print::over(905, 1))?;
    insert_two(rt, words, 1, high, print::over(1811, 2))?;
    insert_two(rt, words, 2, low, print::over(1000000000000000, 1))?;
    insert_two(rt, words, 3, low, print::over(-1000000000000000, 1))?;
    Ok(())
}

// Rows at the ends of the denominators.
fn neighbours(rt: &impl Print, words: &mut [i64]) -> io::Result<()> {
    let high = print::over(16777216000000, 1);
    insert_two(rt, words, 4, high, print::over(16777215999999, 256))?;
    insert_two(rt, words, 5, high, print::over(16777215999998, 255))?;
    Ok(())
}

// Rows that are there, outside the bounds, or too many for the words.
fn strangers(rt: &impl Print, words: &mut [i64]) -> io::Result<()> {
    let low = print::over(-16777216000000, 1);
    let one = print::over(1, 1);
    insert_two(rt, words, 6, low, print::over(1000000000000000, 1))?;
    insert_two(rt, words, 6, low, print::over(1000000000000001, 1))?;
    insert_two(rt, words, 6, print::over(1, 257), one)?;
    insert_two(rt, words, 6, one, one)?;
    insert_two(rt, words, 7, one, one)?;
    insert_two(rt, words, 257, one, one)?;
    Ok(())
}

// A value outside the bounds written over one of a column.
fn spoiled(rt: &impl Print, words: &mut [i64]) -> io::Result<()> {
    let odd = print::over(1, 257);
    answer(rt, "write 1/257 at place 1: ", words::write(words, 1, odd))?;
    answer(
        rt,
        "write 1/257 at place 13: ",
        words::write(words, 13, odd),
    )?;
    aggregate(rt, words, 2, 6, 0, 1)?;
    aggregate(rt, words, 2, 6, 1, 1)?;
    aggregate(rt, words, 2, 6, 2, 1)?;
    aggregate(rt, words, 2, 6, 2, 0)
}

// A set at the ends, in words that hold 13 values.
pub(crate) fn ends(rt: &impl Print) -> io::Result<()> {
    let mut words: [i64; 27] = [0; 27];
    extremes(rt, &mut words)?;
    neighbours(rt, &mut words)?;
    strangers(rt, &mut words)?;
    print::set(rt, &words, 2, 12)?;
    aggregates(rt, &words, 2, 6, 0)?;
    aggregates(rt, &words, 2, 0, 1)?;
    aggregate(rt, &words, 2, 6, 2, 1)?;
    aggregate(rt, &words, 2, 6, 3, 1)?;
    aggregate(rt, &words, 2, 7, 3, 1)?;
    aggregate(rt, &words, 2, 6, 3, 2)?;
    aggregate(rt, &words, 5, 2, 3, 1)?;
    spoiled(rt, &mut words)
}

// Rows with absent values, in no order.
fn insert_absents(rt: &impl Print, words: &mut [i64]) -> io::Result<()> {
    let none = value::absent();
    insert_two(rt, words, 0, print::over(0, 1), none)?;
    insert_two(rt, words, 1, print::over(7, 1), print::over(-1, 2))?;
    insert_two(rt, words, 2, none, print::over(3, 1))?;
    insert_two(rt, words, 3, print::over(-5, 1), none)?;
    Ok(())
}

// Further ones, of which one is put twice and one is outside the bounds.
fn insert_more_absents(rt: &impl Print, words: &mut [i64]) -> io::Result<()> {
    let none = value::absent();
    insert_two(rt, words, 4, none, none)?;
    insert_two(rt, words, 5, none, none)?;
    insert_two(rt, words, 5, print::over(1, 0), none)?;
    insert_two(rt, words, 5, print::over(4, 1), none)?;
    Ok(())
}

// A set with absent values: its order, its aggregates, and those of its first two rows, absent in the first column.
pub(crate) fn absents(rt: &impl Print) -> io::Result<()> {
    let mut words: [i64; 24] = [0; 24];
    insert_absents(rt, &mut words)?;
    insert_more_absents(rt, &mut words)?;
    print::set(rt, &words, 2, 12)?;
    aggregates(rt, &words, 2, 6, 0)?;
    aggregate(rt, &words, 2, 6, 2, 1)?;
    aggregate(rt, &words, 2, 6, 3, 1)?;
    aggregates(rt, &words, 2, 2, 0)
}

// A drawn number.
#[derive(Clone, Copy)]
struct Seed {
    x: u64,
}

// The number drawn after it.
fn next(s: Seed) -> Seed
    requires { s.x < 2147483648 }
    ensures { result.x < 2147483648 }
{
    Seed {
        x: (s.x * 1103515245 + 12345) % 2147483648,
    }
}

// Five small numerators.
fn small(k: u64) -> i64 {
    match k {
        0 => -2,
        1 => -1,
        2 => 0,
        3 => 1,
        _ => 2,
    }
}

// Two large ones.
fn large(k: u64) -> i64 {
    match k {
        0 => -16777216000000,
        _ => 16777216000000,
    }
}

// A ratio in lowest terms written at a place of a row.
fn put(row: &mut [i64], p: usize, sum: i64, count: u64) {
    if let Some(v) = value::average(sum, count) {
        words::write(row, p, v);
    }
}

// A drawn row of four columns put among count rows.
fn insert_drawn(rt: &impl Print, words: &mut [i64], count: usize, s: Seed) -> io::Result<usize>
    ensures { IfOk result (λ n. n ≤ 1) }
{
    let mut row: [i64; 8] = [0; 8];
    put(&mut row, 0, small(s.x / 16 % 5), 1 + s.x / 256 % 3);
    put(&mut row, 1, large(s.x / 1024 % 2), 255 + s.x / 4096 % 2);
    put(&mut row, 2, small(s.x / 65536 % 4), 1);
    put(&mut row, 3, 1823, 1 + s.x / 1048576 % 2);
    insert(rt, words, 4, count, &row)
}

// 600 drawn rows.
fn fill(rt: &impl Print, words: &mut [i64]) -> io::Result<usize>
    ensures { IfOk result (λ n. n ≤ 600) }
{
    let mut s = Seed { x: 1 };
    let mut count = 0;
    for _ in 0..600usize {
        s = next(s);
        count += insert_drawn(rt, words, count, s)?;
    }
    Ok(count)
}

// A set copied, and buffers made zero.
fn buffers(rt: &impl Print, words: &mut [i64]) -> io::Result<()> {
    let mut result: [i64; 2048] = [7; 2048];
    answer(
        rt,
        "copy 1023 values: ",
        words::copy(words, &mut result, 1023),
    )?;
    print::say(rt, "value 1022 and the next:")?;
    print::row(rt, &result[2044..], 2)?;
    answer(
        rt,
        "\ncopy 1025 values: ",
        words::copy(words, &mut result, 1025),
    )?;
    answer(rt, "zero 2046 words: ", words::zero(&mut result, 2046))?;
    print::say(rt, "value 1022 and the next:")?;
    print::row(rt, &result[2044..], 2)?;
    answer(rt, "\nzero 2049 words: ", words::zero(&mut result, 2049))
}

// A set of drawn rows, to the 257th.
pub(crate) fn drawn(rt: &impl Print) -> io::Result<()> {
    let mut words: [i64; 2048] = [0; 2048];
    let count = fill(rt, &mut words)?;
    print::place(rt, "new rows ", count)?;
    print::set(rt, &words, 4, 1024)?;
    aggregates(rt, &words, 4, 256, 2)?;
    aggregate(rt, &words, 4, 256, 2, 0)?;
    aggregate(rt, &words, 4, 256, 3, 0)?;
    aggregate(rt, &words, 4, 256, 2, 1)?;
    aggregate(rt, &words, 4, 256, 3, 3)?;
    aggregate(rt, &words, 4, 257, 0, 0)?;
    buffers(rt, &mut words)
}
