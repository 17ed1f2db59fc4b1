// Lines of text: numbers, values and answers in words.
ghost use Rattle.std.specs.Prelude.{◌≡◌, nat_abs};

use rows::Place;
use std::cmp::Ordering;
use std::io;
use value::Value;

// A value.
pub(crate) fn over(num: i64, den: i64) -> Value {
    Value { num, den }
}

// Text as it is.
pub(crate) fn say(rt: &impl Print, text: &str) -> io::Result<()> {
    print!(rt; "{text}")
}

// The size of a number.
pub(crate) fn size(x: i64) -> u64
    ensures { result ≡ nat_abs x }
{
    x.unsigned_abs()
}

// A number without sign.
pub(crate) fn number(rt: &impl Print, n: u64) -> io::Result<()> {
    print!(rt; "{n}")
}

// A number with its sign.
pub(crate) fn signed(rt: &impl Print, x: i64) -> io::Result<()> {
    if x < 0 {
        say(rt, "-")?;
    }
    number(rt, size(x))
}

// A value as numerator/denominator.
pub(crate) fn ratio(rt: &impl Print, v: Value) -> io::Result<()> {
    signed(rt, v.num)?;
    say(rt, "/")?;
    signed(rt, v.den)
}

// A truth.
pub(crate) fn truth(rt: &impl Print, t: bool) -> io::Result<()> {
    if t { say(rt, "yes") } else { say(rt, "no") }
}

// An order.
pub(crate) fn order(rt: &impl Print, o: Option<Ordering>) -> io::Result<()> {
    match o {
        Some(Ordering::Less) => say(rt, "less"),
        Some(Ordering::Equal) => say(rt, "equal"),
        Some(Ordering::Greater) => say(rt, "greater"),
        None => say(rt, "outside"),
    }
}

// Whether an operator is met.
pub(crate) fn verdict(rt: &impl Print, v: Option<bool>) -> io::Result<()> {
    match v {
        Some(met) => truth(rt, met),
        None => say(rt, "outside"),
    }
}

// An average.
pub(crate) fn mean(rt: &impl Print, m: Option<Value>) -> io::Result<()> {
    match m {
        Some(v) => ratio(rt, v),
        None => say(rt, "outside"),
    }
}

// An aggregate.
pub(crate) fn aggregate(rt: &impl Print, a: Result<Value, aggregates::Fault>) -> io::Result<()> {
    match a {
        Ok(v) => ratio(rt, v),
        Err(aggregates::Fault::Outside) => say(rt, "outside"),
        Err(aggregates::Fault::Refused) => say(rt, "refused"),
    }
}

// A place, with what it is the place of.
pub(crate) fn place(rt: &impl Print, text: &str, k: usize) -> io::Result<()> {
    print!(rt; "{text}{k}")
}

// What became of a row.
pub(crate) fn added(rt: &impl Print, a: Result<Place, rows::Fault>) -> io::Result<()> {
    match a {
        Ok(Place::New(k)) => place(rt, "new ", k),
        Ok(Place::There(k)) => place(rt, "there ", k),
        Err(rows::Fault::Outside) => say(rt, "outside"),
        Err(rows::Fault::Large) => say(rt, "large"),
        Err(rows::Fault::Refused) => say(rt, "refused"),
    }
}

// The value at place p of a set of n columns, the first of a row after its number.
pub(crate) fn cell(rt: &impl Print, words: &[i64], n: usize, p: usize) -> io::Result<()> {
    if n == 0 {
        return Ok(());
    }
    if p % n == 0 {
        place(rt, "\nrow ", p / n)?;
    }
    entry(rt, words, p)
}

// The first m values of a set of n columns, a row a line.
pub(crate) fn set(rt: &impl Print, words: &[i64], n: usize, m: usize) -> io::Result<()> {
    for p in 0..m {
        cell(rt, words, n, p)?;
    }
    say(rt, "\n")
}

// The value at place p.
pub(crate) fn entry(rt: &impl Print, words: &[i64], p: usize) -> io::Result<()> {
    say(rt, " ")?;
    ratio(rt, words::read(words, p))
}

// The first n values of a row.
pub(crate) fn row(rt: &impl Print, words: &[i64], n: usize) -> io::Result<()> {
    for p in 0..n {
        entry(rt, words, p)?;
    }
    Ok(())
}
