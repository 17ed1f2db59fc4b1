// The chart of the operators in words: each operator against less, equal, greater and absent, a line each.
// A script in tests/ computes the same lines with Python's own operators, apart from this code.
#![tactic(auto)]

use chart::Relation;
use std::io;

// An operator as the notation writes it, by its number.
fn operator(op: u8) -> &'static str {
    match op {
        0 => "=",
        1 => "!=",
        2 => "<",
        3 => "<=",
        4 => ">",
        _ => ">=",
    }
}

// A relation.
fn relation(r: Relation) -> &'static str {
    match r {
        Relation::Less => "less",
        Relation::Equal => "equal",
        Relation::Greater => "greater",
        Relation::Absent => "absent",
    }
}

// The chart's answer to an operator and a relation.
fn line(rt: &impl Print, op: u8, r: Relation) -> io::Result<()> {
    let answer = if chart::meets(op, r) { "yes" } else { "no" };
    println!(rt; "{} {} {answer}", operator(op), relation(r))
}

// An operator against all four.
fn four(rt: &impl Print, op: u8) -> io::Result<()> {
    line(rt, op, Relation::Less)?;
    line(rt, op, Relation::Equal)?;
    line(rt, op, Relation::Greater)?;
    line(rt, op, Relation::Absent)
}

fn main(rt: HostRuntime) -> io::Result<()> {
    four(&rt, 0)?;
    four(&rt, 1)?;
    four(&rt, 2)?;
    four(&rt, 3)?;
    four(&rt, 4)?;
    four(&rt, 5)
}
