// The program named listing: a job on standard input, its answer on standard output. It only reads, calls and writes:
// `reply::list` gives the text for every sequence of bytes. Room for a byte more than the longest job shows bytes after
// the plan; the longest text, 256 rows of four values of 20 bytes, has room too.
#![tactic(auto)]

use std::io;
use std::io::{Read, Write};

fn main(rt: HostRuntime) -> io::Result<()> {
    let mut bytes = Vec::new(rt.alloc());
    rt.reader().take(196627).read_to_end(&mut bytes)?;
    let mut text = vec![in rt.alloc(); 0; 65536]?;
    let length = reply::list(&bytes, &mut text);
    io::writer(&rt).write_all(&text[..length])
}
