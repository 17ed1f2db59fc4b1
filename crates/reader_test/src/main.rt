// The lowest number from 3 to 11 that applies to each job of a stream on standard input, and to every single-byte
// change of job J's question and plan, or 0. A script in tests/ computes the same lines by the evaluator, apart from
// this code.
#![tactic(auto)]

mod changes;
mod jobs;
mod judge;

use std::io;
use stream::StreamError;

// All the lines; those of J only after a stream that is well formed.
fn main(rt: HostRuntime) -> io::Result<()> {
    match jobs::all(&rt, rt.alloc(), &mut rt.reader()) {
        Ok(jobs) => println!(rt; "jobs: {jobs}")?,
        Err(StreamError::Malformed) => return println!(rt; "malformed stream"),
        Err(StreamError::Reading(e)) => return Err(e),
    }
    changes::all(&rt)
}
