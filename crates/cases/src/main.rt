// The answer of the engine to each job of a stream on standard input, a line `changed` where it leaves a lent word other
// than the contract has it, and how many jobs there are. A script in tests/ computes the same lines by the evaluator,
// apart from this code.
#![tactic(auto)]

mod jobs;
mod lent;
mod print;
mod run;

use std::io;
use stream::StreamError;

fn main(rt: HostRuntime) -> io::Result<()> {
    match jobs::all(&rt, rt.alloc(), &mut rt.reader()) {
        Ok(jobs) => println!(rt; "jobs: {jobs}"),
        Err(StreamError::Malformed) => println!(rt; "malformed stream"),
        Err(StreamError::Reading(e)) => Err(e),
    }
}
