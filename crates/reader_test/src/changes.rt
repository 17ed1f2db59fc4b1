// Job J (docs/job-j.md) with one byte changed to each of its 256 values, its own among them, counted by number.
ghost use Rattle.std.specs.Prelude.{◌≡◌, ◌<◌, ◌≤◌, length};

use crate::judge;
use std::io;

// J's data.
fn data() -> [i32; 21]
    ensures { 21 ≡ length result }
{
    [
        2, 1, 4, 3, 4, 1, 2, 3, 2, 11, 1, 910, 12, 1, 913, 13, 2, 905, 14, 2, 905,
    ]
}

// J's question, 94 bytes, and its plan, 8 bytes.
fn bytes() -> [u8; 102]
    ensures { 102 ≡ length result }
{
    *b"BK\xffRW\x00\x01\x02\x00\x00\x00\x00\x00\x00\x00\x00\
       OL\x02\x02\x00\x00\x00\x00\x00\x00\x00\x00\x04\x04\x01\x01\x00\x00\x00\x00\x00\
       BK\x00RW\x01\x03\x02\x01\x00\x00\x00\x00\x00\x00\x00\
       \x03\x00\x00\x00\x00\x00\x00\x00\x00\x02\x02\x00\x00\x00\x00\x00\x00\x00\
       OL\x02\x02\x01\x00\x00\x00\x00\x00\x00\x00\x02\x02\x00\x00\x00\x00\x00\x00\x00EN\
       PL\x00\x00PL\x02\x01"
}

// The number of J with a question and plan of these bytes.
fn number(s: &[u8]) -> u8
    requires { 102 ≡ length s.now }
{
    let words = data();
    let (question, plan) = s.split_at(94);
    judge::number(&words, question, plan)
}

// The number of J with this byte at a place of the question or, behind it, of the plan.
fn changed(at: usize, byte: u8) -> u8
    requires { at < 102 }
{
    let mut s = bytes();
    s[at] = byte;
    number(&s)
}

// One more of a number.
fn add(tally: &mut [u64; 12], number: u8) {
    if let Some(n) = tally.get_mut(usize::from(number)) {
        *n = n.wrapping_add(1);
    }
}

// The 256 values at a place.
fn values(tally: &mut [u64; 12], at: usize)
    requires { at < 102 }
{
    for byte in 0..=255 {
        add(tally, changed(at, byte));
    }
}

// The places from one up to, and not including, another.
fn places(tally: &mut [u64; 12], from: usize, to: usize)
    requires { to ≤ 102 }
{
    for at in from..to {
        values(tally, at);
    }
}

// How many changes have a number, in a line.
fn told(rt: &impl Print, name: &str, tally: &[u64; 12], number: usize) -> io::Result<()>
    requires { number < 12 }
{
    println!(rt; "{name} {number}: {}", tally[number])
}

// Every change at some places, a line for 0 and for each number from 3 to 11.
fn count(rt: &impl Print, name: &str, from: usize, to: usize) -> io::Result<()>
    requires { to ≤ 102 }
{
    let mut tally = [0; 12];
    places(&mut tally, from, to);
    told(rt, name, &tally, 0)?;
    for number in 3..12 {
        told(rt, name, &tally, number)?;
    }
    Ok(())
}

// Every change of the question, and every change of the plan.
pub(crate) fn all(rt: &impl Print) -> io::Result<()> {
    count(rt, "question", 0, 94)?;
    count(rt, "plan", 94, 102)
}
