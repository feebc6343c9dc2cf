// Reads a job on standard input and prints the reply: both verdicts with their evidence, or the refusal.
#![tactic(auto)]

use std::io::{self, Write};

// "at most 22,500 bytes of it (one more than the largest job has)"
const MOST: usize = 22500;

fn main(rt: HostRuntime) -> io::Result<()> {
    // Rooms of fixed length, of which the front is used: fixed memory, no heap.
    let mut job = [0u8; MOST];
    let n = reading::read_full(&mut rt.reader(), &mut job)?;
    let mut room = [0u8; fits::LONGEST];
    let k = fits::printed(&job[..n], &mut room);
    io::writer(&rt).write_all(&room[..k])
}
