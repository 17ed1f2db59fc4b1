// Orders, operators, averages and sets at both ends of every range, a line each with its operands and its result.
// A script in tests/ computes the same lines with fractions, apart from this code.
#![tactic(auto)]

mod print;
mod sets;

use std::io;
use value::Value;

// Six numerators: the ends of the constants, of the result's numerators, and two near zero.
fn numerator(i: usize) -> i64 {
    match i {
        0 => -1000000000000000,
        1 => -16777216000000,
        2 => 0,
        3 => 1,
        4 => 16777216000000,
        _ => 1000000000000000,
    }
}

// Four denominators.
fn denominator(i: usize) -> i64 {
    match i {
        0 => 1,
        1 => 2,
        2 => 255,
        _ => 256,
    }
}

// The values of these, 24 in all.
fn sample(i: usize) -> Value {
    Value {
        num: numerator(i / 4),
        den: denominator(i % 4),
    }
}

// Whether two values meet an operator.
fn operator(rt: &impl Print, name: &str, op: u8, x: Value, y: Value) -> io::Result<()> {
    print::say(rt, name)?;
    print::verdict(rt, value::holds(op, x, y))
}

// Two values: their order and the six operators.
fn pair(rt: &impl Print, x: Value, y: Value) -> io::Result<()> {
    print::say(rt, "order ")?;
    print::ratio(rt, x)?;
    print::say(rt, " ")?;
    print::ratio(rt, y)?;
    print::say(rt, " ")?;
    print::order(rt, value::order(x, y))?;
    operator(rt, " = ", 0, x, y)?;
    operator(rt, " != ", 1, x, y)?;
    operator(rt, " < ", 2, x, y)?;
    operator(rt, " <= ", 3, x, y)?;
    operator(rt, " > ", 4, x, y)?;
    operator(rt, " >= ", 5, x, y)?;
    print::say(rt, "\n")
}

// A value against each.
fn orders_of(rt: &impl Print, x: Value) -> io::Result<()> {
    for j in 0..24 {
        pair(rt, x, sample(j))?;
    }
    Ok(())
}

// Each value against each.
fn orders(rt: &impl Print) -> io::Result<()> {
    for i in 0..24 {
        orders_of(rt, sample(i))?;
    }
    Ok(())
}

// Equal values with other denominators, and neighbours of one.
fn written_twice(rt: &impl Print) -> io::Result<()> {
    let half = print::over(1, 2);
    pair(rt, print::over(2, 4), half)?;
    pair(rt, half, print::over(2, 4))?;
    pair(rt, print::over(-128, 256), print::over(-1, 2))?;
    pair(rt, print::over(255, 255), print::over(256, 256))?;
    pair(
        rt,
        print::over(16777216000000, 256),
        print::over(65536000000, 1),
    )?;
    pair(rt, print::over(127, 256), half)?;
    pair(rt, print::over(129, 256), half)
}

// Values just outside the bounds, beside one and beside absent.
fn outsiders(rt: &impl Print) -> io::Result<()> {
    let one = print::over(1, 1);
    let absent = print::over(0, 0);
    pair(rt, print::over(1000000000000001, 1), one)?;
    pair(rt, one, print::over(-1000000000000001, 1))?;
    pair(rt, print::over(0, 257), one)?;
    pair(rt, one, print::over(1, 0))?;
    pair(rt, print::over(1, -1), one)?;
    pair(rt, print::over(-9223372036854775808, 1), one)?;
    pair(rt, one, print::over(9223372036854775807, 256))?;
    pair(rt, print::over(1000000000000001, 1), absent)?;
    pair(rt, absent, print::over(-1000000000000001, 1))?;
    pair(rt, print::over(-9223372036854775808, 1), absent)?;
    pair(rt, absent, print::over(9223372036854775807, 256))
}

// A value against absent, against four that are like it and outside the bounds, and against three inside.
fn about_absent(rt: &impl Print, x: Value) -> io::Result<()> {
    pair(rt, x, print::over(0, 0))?;
    pair(rt, x, print::over(1, 0))?;
    pair(rt, x, print::over(-1, 0))?;
    pair(rt, x, print::over(0, -1))?;
    pair(rt, x, print::over(0, 257))?;
    pair(rt, x, print::over(1, 256))?;
    pair(rt, x, print::over(-1000000000000000, 1))?;
    pair(rt, x, print::over(1000000000000000, 1))
}

// Each of these against each.
fn absents(rt: &impl Print) -> io::Result<()> {
    about_absent(rt, print::over(0, 0))?;
    about_absent(rt, print::over(1, 0))?;
    about_absent(rt, print::over(-1, 0))?;
    about_absent(rt, print::over(0, -1))?;
    about_absent(rt, print::over(0, 257))?;
    about_absent(rt, print::over(1, 256))?;
    about_absent(rt, print::over(-1000000000000000, 1))?;
    about_absent(rt, print::over(1000000000000000, 1))
}

// Two values and operators past the last, which are read as it.
fn past(rt: &impl Print, x: Value, y: Value) -> io::Result<()> {
    print::say(rt, "past the last ")?;
    print::ratio(rt, x)?;
    print::say(rt, " ")?;
    print::ratio(rt, y)?;
    operator(rt, " 6 ", 6, x, y)?;
    operator(rt, " 255 ", 255, x, y)?;
    print::say(rt, "\n")
}

// Less, equal, greater, absent left, right and both, outside.
fn past_the_last(rt: &impl Print) -> io::Result<()> {
    let one = print::over(1, 1);
    let absent = print::over(0, 0);
    past(rt, one, print::over(2, 1))?;
    past(rt, one, one)?;
    past(rt, one, print::over(1, 2))?;
    past(rt, absent, one)?;
    past(rt, one, absent)?;
    past(rt, absent, absent)?;
    past(rt, print::over(1, 257), one)
}

// Ten sums: the ends of what an average takes, just past them, the ends of the result's numerators, some between.
fn sum(i: usize) -> i64 {
    match i {
        0 => -9223372036854775808,
        1 => -256000000000000001,
        2 => -256000000000000000,
        3 => -16777216000000,
        4 => -1,
        5 => 0,
        6 => 1823,
        7 => 16777216000000,
        8 => 256000000000000000,
        _ => 256000000000000001,
    }
}

// Eight counts.
fn count(i: usize) -> u64 {
    match i {
        0 => 0,
        1 => 1,
        2 => 2,
        3 => 3,
        4 => 255,
        5 => 256,
        6 => 257,
        _ => 18446744073709551615,
    }
}

// A sum over a count.
fn average(rt: &impl Print, s: i64, n: u64) -> io::Result<()> {
    print::say(rt, "average ")?;
    print::signed(rt, s)?;
    print::say(rt, " over ")?;
    print::number(rt, n)?;
    print::say(rt, " is ")?;
    print::mean(rt, value::average(s, n))?;
    print::say(rt, "\n")
}

// A sum over each count.
fn averages_of(rt: &impl Print, s: i64) -> io::Result<()> {
    for j in 0..8 {
        average(rt, s, count(j))?;
    }
    Ok(())
}

// Each sum over each count.
fn averages(rt: &impl Print) -> io::Result<()> {
    for i in 0..10 {
        averages_of(rt, sum(i))?;
    }
    Ok(())
}

// A function of an empty set.
fn empty(rt: &impl Print, f: u8) -> io::Result<()> {
    print::say(rt, "empty ")?;
    print::number(rt, f as u64)?;
    print::say(rt, " is ")?;
    print::ratio(rt, value::empty_of(f))?;
    print::say(rt, "\n")
}

// Each function of an empty set, and codes past the last.
fn empties(rt: &impl Print) -> io::Result<()> {
    empty(rt, 0)?;
    empty(rt, 1)?;
    empty(rt, 2)?;
    empty(rt, 3)?;
    empty(rt, 4)?;
    empty(rt, 5)?;
    empty(rt, 255)
}

// A greatest common divisor.
fn divisor(rt: &impl Print, a: u64, b: u64) -> io::Result<()> {
    print::say(rt, "gcd ")?;
    print::number(rt, a)?;
    print::say(rt, " ")?;
    print::number(rt, b)?;
    print::say(rt, " is ")?;
    print::number(rt, value::gcd(a, b))?;
    print::say(rt, "\n")
}

// Divisors at both ends.
fn divisors(rt: &impl Print) -> io::Result<()> {
    divisor(rt, 0, 0)?;
    divisor(rt, 0, 256)?;
    divisor(rt, 256, 0)?;
    divisor(rt, 16777216000000, 256)?;
    divisor(rt, 16777216000000, 255)?;
    divisor(rt, 18446744073709551615, 255)?;
    divisor(rt, 18446744073709551615, 18446744073709551614)?;
    divisor(rt, 12200160415121876738, 7540113804746346429)
}

// All the lines.
fn main(rt: HostRuntime) -> io::Result<()> {
    orders(&rt)?;
    written_twice(&rt)?;
    outsiders(&rt)?;
    absents(&rt)?;
    past_the_last(&rt)?;
    averages(&rt)?;
    empties(&rt)?;
    divisors(&rt)?;
    sets::ends(&rt)?;
    sets::absents(&rt)?;
    sets::drawn(&rt)
}
