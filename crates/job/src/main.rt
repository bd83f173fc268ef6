// The job program: reads a rebuild job from standard input and writes the answer to standard output. Where it can't read or write it says so on
// standard error.
#![tactic(auto)]

ghost use Rattle.std.specs.Prelude.{◌≤◌, length, IfOk};

use std::io::{Eprint, Read, Result, Write};

// Reads until the input ends or the lent bytes are full, and tells how many came. No read follows one that failed: what came later would join what
// was cut off.
fn read_input(from: &mut impl Read, input: &mut [u8]) -> Result<usize>
    ensures { IfOk result (λ n. n ≤ length input.new) }
{
    let mut done = 0;
    // No `for`: each read tells how far it came.
    while done < input.len() {
        match from.read(&mut input[done..])? {
            0 => break,
            more => done += more,
        }
    }
    Ok(done)
}

// Writes the answer to the job that these bytes are. No answer is longer than 32,775 bytes.
fn answer(to: &mut impl Write, job: &[u8]) -> Result<()> {
    let mut output = [0u8; 32775];
    let size = jobs::answer(job, &mut output);
    to.write_all(&output[..size])
}

// No job is longer than 36,883 bytes: one byte more is read, so that a longer input is seen to be none. A job that can't be read whole is not
// answered.
fn main(rt: HostRuntime) -> Result<()> {
    let mut input = [0u8; 36884];
    match read_input(&mut rt.stdin(), &mut input) {
        Ok(n) => match answer(&mut rt.stdout(), &input[..n]) {
            Ok(()) => Ok(()),
            Err(error) => eprintln!(rt; "standard output: {error}"),
        },
        Err(error) => eprintln!(rt; "standard input: {error}"),
    }
}
