// The two tables that a box is settled from, laid station by station.
ghost use Rattle.std.specs.Prelude.{◌≡◌, ℕ, ◌++◌, ◌+◌, ◌*◌, ◌≤◌, ◌<◌, length, take, drop};
ghost use Rattle.cuts.specs.Below.{tab};
ghost use Rattle.recording.specs.Form.{lead8, width8};
ghost use Rattle.recording.specs.Decode.{starts_of};
ghost use Rattle.engine.specs.Prepare.{Short, rows_to, needs_to, weights_to};

use crate::{Accepted, needs, weights};
use condition::Condition;
use cut::Cut;

// A station's part of the tables: its place, where its records and its rows begin, and how many events it has.
#[derive(Clone, Copy, Debug, PartialEq, Eq)]
pub struct Station {
    pub place: usize,
    pub first: usize,
    pub row: usize,
    pub events: usize,
    ghost few: { events ≤ 511 },
    ghost records: { first ≤ row },
    ghost rows: { row + (events + 1) ≤ 4096 },
}

// What all stations' events need, and what the stations add after each of them, into the fronts of the rooms; the rows before those of each station.
// What it is handed travels together nowhere else.
// Not inlined: inlined, it takes registers from the loops of `marks`, and a box of two long stations took 16 in 100 longer.
#[inline(never)]
pub fn lay(
    c: Condition,
    accepted: Accepted,
    full: Cut,
    needed: &mut [u16],
    added: &mut [u16],
) -> [usize; 8]
    requires { Short full × (length needed.old ≡ 32768) × (length added.old ≡ 4096) }
    ensures bases { result ≡ tab 8 (rows_to full.counts) }
    ensures needs { needed.new ≡ needs_to full.counts accepted.entry.stamps.now full.n ++ drop (8 * rows_to full.counts full.n) needed.old }
    ensures weights { added.new ≡ weights_to full.counts c (starts_of lead8 width8 accepted.entry.bytes.now) accepted.entry.levels.now full.n ++ drop (1 * rows_to full.counts full.n) added.old }
{
    let bases = needs::bases(full);
    let starts = recording::starts(accepted.bytes);
    for p in 0..usize::from(full.n) {
        let row = bases[p];
        let station = Station {
            place: p,
            first: row - p,
            row,
            events: usize::from(full.counts[p]),
        };
        needs::lay_station_needs(accepted.stamps, station, needed);
        weights::lay_station_weights(c, starts[p], accepted.levels, station, added);
    }
    bases
}

// The j-th of k numbers from place `at` on is what f says of j.
pub fn lay_each<F: Fn(usize) -> u16>(room: &mut [u16], at: usize, k: usize, f: F)
    requires room { at + k ≤ length room.old }
    requires each { (j : ℕ) → j < k → F.pre f j }
    ensures { (g : ℕ → ℕ) → ((j r : ℕ) → j < k → F.post f j r → r ≡ g j) → room.new ≡ take at room.old ++ tab k g ++ drop (at + k) room.old }
{
    for j in 0..k {
        room[at + j] = f(j);
    }
}
