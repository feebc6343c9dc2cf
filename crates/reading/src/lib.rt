// What the programs read their input with.
#![tactic(auto)]

ghost use Rattle.std.specs.Prelude.{◌≡◌, ℕ, ◌+◌, ◌*◌, ◌<◌, ◌≤◌, length, take, slice_index, IfOk, OnErr};
ghost use Rattle.std.specs.Io.{ReadsAtMost};
ghost use Rattle.std.specs.Io.KnownBytes.{Consumes, IsAtEnd};

use std::io::{self, Read};

// The longest that two bytes can announce.
pub const ANNOUNCED: usize = 65535;

// Reads until the room is full or the input ends; how many bytes there were. They stand in the front of the room, and so do those that were read before an error.
pub fn read_full<R: Read>(input: &mut R, room: &mut [u8]) -> io::Result<usize>
    ensures prefix_len { ReadsAtMost result room.new }
    ensures bytes { IfOk result (λ n. Consumes (R.remaining input.old) (R.remaining input.new) (take n room.new)) }
    ensures end { IfOk result (λ n. n < length room.new → IsAtEnd (R.remaining input.new)) }
    ensures err { OnErr result ((n : ℕ) × (n ≤ length room.new) × Consumes (R.remaining input.old) (R.remaining input.new) (take n room.new)) }
{
    let mut filled = 0;
    // A read gives as many bytes as it likes: there is no index to count, and `read_exact` says nothing of what an error leaves.
    while filled < room.len() {
        let n = input.read(&mut room[filled..])?;
        if n == 0 {
            break;
        }
        filled += n;
    }
    Ok(filled)
}

// The length that two bytes say, high first.
pub fn length_of(head: [u8; 2]) -> usize
    ensures { (result ≡ slice_index head 0 * 256 + slice_index head 1) × (result ≤ ANNOUNCED) }
{
    usize::from(u16::from_be_bytes(head))
}
