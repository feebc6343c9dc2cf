// Damages the recording on standard input in every simple way, and counts the replies of the checks by their number (0: accepted).
#![tactic(auto)]

use refusal::Refusal;
use std::io;

// The longest recording that is damaged.
const MOST: usize = 4096;

fn main(rt: HostRuntime) -> io::Result<()> {
    // A room of fixed length, of which the front is used: fixed memory, no heap.
    let mut buf = [0u8; MOST];
    let n = reading::read_full(&mut rt.reader(), &mut buf)?;
    println!(rt; "cut short")?;
    cut_short(&buf[..n]).print(&rt)?;
    println!(rt; "one bit flipped")?;
    flipped(&mut buf[..n]).print(&rt)
}

// How often each number was replied.
#[derive(Clone, Copy, Debug, Default, PartialEq, Eq)]
struct Counts {
    by_number: [u32; 16],
}

impl Counts {
    // One more reply.
    fn add(&mut self, reply: Result<(), Refusal>) {
        let number = match reply {
            Ok(()) => 0,
            Err(x) => x.reason.number(),
        };
        if let Some(count) = self.by_number.get_mut(usize::from(number)) {
            *count = count.wrapping_add(1);
        }
    }

    // A line for each number that occurred: it, and how often. No Display: a program's lines go out by `println!`.
    fn print<P: Print>(self, rt: &P) -> io::Result<()> {
        for (number, count) in self.by_number.iter().enumerate() {
            if *count != 0 {
                println!(rt; "{number} {count}")?;
            }
        }
        Ok(())
    }
}

// The replies to every proper beginning of s.
fn cut_short(s: &[u8]) -> Counts {
    let mut counts = Counts::default();
    for k in 0..s.len() {
        counts.add(recording::check(&s[..k]));
    }
    counts
}

// The replies to s with each of its bits flipped.
fn flipped(s: &mut [u8]) -> Counts {
    let mut counts = Counts::default();
    for i in 0..s.len() {
        let good = s[i];
        for bit in 0..8 {
            s[i] = good ^ 1u8.wrapping_shl(bit);
            counts.add(recording::check(s));
        }
        s[i] = good;
    }
    counts
}
