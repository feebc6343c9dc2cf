// Runs the settled examples of document 01, the whole example among them. They stand on standard input, each a line that names it and a job, and before each
// of the two its length in two bytes, high first: prints the line, then the text of the reply to the job.
#![tactic(auto)]

ghost use Rattle.std.specs.Prelude.{◌≤◌, IfOk};

use reading::ANNOUNCED;
use std::io::{self, Read, Write};

// More than there are examples: a proved loop has to end.
const MOST: u8 = 100;

fn main(rt: HostRuntime) -> io::Result<()> {
    let mut input = rt.reader();
    let mut output = io::writer(&rt);
    for _ in 0..MOST {
        if !run_next(&mut input, &mut output)? {
            break;
        }
    }
    Ok(())
}

// Reads an example, prints its line and the reply to its job; whether there was one.
fn run_next<R: Read, W: Write>(input: &mut R, output: &mut W) -> io::Result<bool> {
    // Rooms of fixed length, of which the front is used: fixed memory, no heap.
    let mut part = [0u8; ANNOUNCED];
    let n = read_part(input, &mut part)?;
    if n == 0 {
        return Ok(false);
    }
    output.write_all(&part[..n])?;
    let k = read_part(input, &mut part)?;
    print_reply(output, &part[..k])?;
    Ok(true)
}

// Reads a part into the front of the room; how many bytes there were.
fn read_part<R: Read>(input: &mut R, room: &mut [u8; ANNOUNCED]) -> io::Result<usize>
    ensures { IfOk result (λ n. n ≤ ANNOUNCED) }
{
    let mut head = [0u8; 2];
    reading::read_full(input, &mut head)?;
    reading::read_full(input, &mut room[..reading::length_of(head)])
}

// The text of the reply to a job.
fn print_reply<W: Write>(output: &mut W, job: &[u8]) -> io::Result<()> {
    let mut room = [0u8; fits::LONGEST];
    let n = fits::printed(job, &mut room);
    output.write_all(&room[..n])
}
