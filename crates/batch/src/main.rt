// Reads a stream of jobs on standard input, each preceded by its length in two bytes, high first, and prints the reply to each, followed by an empty line.
#![tactic(auto)]

ghost use Rattle.std.specs.Prelude.{◌≡◌, ℕ, ◌++◌, ◌<◌, ◌≤◌, length, take, IfOk, OnErr};
ghost use Rattle.std.specs.Io.{ReadsAtMost};
ghost use Rattle.std.specs.Io.KnownBytes.{Consumes, IsAtEnd};
ghost use Rattle.text.specs.Text.{newline};
ghost use Rattle.reply.specs.Answer.{text_of};

use reading::ANNOUNCED;
use std::io::{self, Read, Write};

// What `verdicts` looks at of a job: "at most 22,500 bytes of it (one more than the largest job has)". The promise of `printed` has the number itself, so that
// a program that looks at a byte less is refused here.
const LOOKED_AT: usize = 22500;

// No reply has a longer text (`text_fits`); and a newline.
const LONGEST: usize = fits::LONGEST + 1;

// A proved loop has to end, and nothing says that a stream does: the turns count up to a number that no stream uses up.
fn main(rt: HostRuntime) -> io::Result<()> {
    let mut input = rt.reader();
    let mut output = io::writer(&rt);
    for _ in 0..u64::MAX {
        if !answer_next(&mut input, &mut output)? {
            break;
        }
    }
    Ok(())
}

// Reads one job and prints the reply to it; whether there was one.
// Behind a length that the end of the stream cuts short there is no byte, so its job is an empty one.
fn answer_next<R: Read, W: Write>(input: &mut R, output: &mut W) -> io::Result<bool> {
    let mut head = [0u8; 2];
    if reading::read_full(input, &mut head)? == 0 {
        return Ok(false);
    }
    answer_job(reading::length_of(head), input, output)?;
    Ok(true)
}

// The same of a job of at most that many bytes.
fn answer_job<R: Read, W: Write>(most: usize, input: &mut R, output: &mut W) -> io::Result<()>
    requires { most ≤ ANNOUNCED }
{
    // Rooms of fixed length, of which the front is used: fixed memory, no heap.
    let mut job = [0u8; ANNOUNCED];
    let n = read_job(most, input, &mut job)?;
    let mut room = [0u8; LONGEST];
    let k = printed(&job[..n], &mut room);
    output.write_all(&room[..k])
}

// Reads a job of at most that many bytes into the front of the room; how many bytes there were.
fn read_job<R: Read>(most: usize, input: &mut R, room: &mut [u8]) -> io::Result<usize>
    requires { most ≤ length room.old }
    ensures prefix_len { ReadsAtMost result room.new }
    ensures bytes { IfOk result (λ n. Consumes (R.remaining input.old) (R.remaining input.new) (take n room.new)) }
    ensures most { IfOk result (λ n. n ≤ most) }
    ensures end { IfOk result (λ n. n < most → IsAtEnd (R.remaining input.new)) }
    ensures err { OnErr result ((n : ℕ) × (n ≤ most) × Consumes (R.remaining input.old) (R.remaining input.new) (take n room.new)) }
{
    reading::read_full(input, &mut room[..most])
}

// The text of the reply to what is looked at of a job and a newline, into the front of a room that always suffices; their length. The newline stands in the
// same room: one write a reply.
fn printed(job: &[u8], room: &mut [u8; LONGEST]) -> usize
    ensures room_after { take result room.new ≡ text_of (take 22500 job.now) ++ newline }
    ensures prefix_len { (result ≤ length room.new) × (result ≡ length (take result room.new)) }
{
    let k = reply::answer(&job[..job.len().min(LOOKED_AT)], room).unwrap();
    room[k] = b'\n';
    k + 1
}
