// A job with its budget, a fourth part, on standard input; its answer on standard output. It only reads, calls and writes:
// `reply::reply_budgeted` gives the text for every sequence of bytes. Room for a byte more than the longest input shows
// bytes after the budget.
#![tactic(auto)]

use std::io;
use std::io::{Read, Write};

fn main(rt: HostRuntime) -> io::Result<()> {
    let mut bytes = Vec::new(rt.alloc());
    rt.reader().take(196641).read_to_end(&mut bytes)?;
    let mut text = vec![in rt.alloc(); 0; 65536]?;
    let length = reply::reply_budgeted(&bytes, &mut text);
    io::writer(&rt).write_all(&text[..length])
}
