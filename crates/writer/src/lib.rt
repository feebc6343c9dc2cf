// The writer: the checks of what was handed in, and the packed recording of document 01 put into a room.
// `as` narrows only what is proved to fit; `try_from` would add an error that cannot occur.
#![tactic(auto)]

ghost use Rattle.std.specs.Prelude.{◌≡◌, ℕ, ◌*◌, ◌≤◌, ◌<◌, length, get_or, OnOk};
ghost use Rattle.cuts.specs.Below.{sum_to, tab};
ghost use Rattle.cuts.specs.Cut.{at};
ghost use Rattle.recording.specs.Form.{lead8, width8};
ghost use Rattle.recording.specs.Check.{fault_of};
ghost use Rattle.writer.specs.Write.{handed, first_given, lengths_tests, given_tests, Wrote};
ghost use Rattle.writer.specs.Tables.{StampsLaid, scanned_given};

mod pack;
mod records;

use crate::pack::Packing;
use crate::records::Tabled;
use faults::Tables;
use recording::{CELLS, Form};
use refusal::{Reason, Refusal};
use std::array;

// What is handed in: n, and the lists, stations in their order and records in file order, n counts to a record. The lists are the caller's, and stay
// beside one another because the law hands them in so.
#[derive(Clone, Copy, Debug, PartialEq, Eq)]
pub struct Given<'a> {
    pub n: u8,
    pub counts: &'a [u8],
    pub starts: &'a [i16],
    pub origins: &'a [u8],
    pub numbers: &'a [u16],
    pub levels: &'a [i16],
    pub stamps: &'a [u16],
}

impl<'a> Given<'a> {
    // What is handed in, packed into the front of the room: the bytes written, or the first refusal in the written order.
    pub fn write(&self, room: &mut [u8]) -> Result<usize, Refusal>
        ensures { Wrote lead8 width8 (handed self.now) room.old room.new result }
    {
        self.check_lists()?;
        self.check_records()?;
        let packing = Packing {
            form: Form::of_today(),
            given: *self,
        };
        let bytes = packing.needed();
        if room.len() < bytes {
            return Err(Refusal::from(Reason::Room));
        }
        packing.put(room);
        Ok(bytes)
    }

    // The tests before the records.
    fn check_lists(&self) -> Result<(), Reason>
        ensures said { result ≡ fault_of (given_tests (handed self.now)) }
        ensures bytes { OnOk result ((p : ℕ) → at self.now.counts.now p < 256) }
    {
        if !(1..=8).contains(&self.n) {
            return Err(Reason::Stations);
        }
        let total = firsts_of(self.counts)[usize::from(self.n)];
        self.check_lengths(total)?;
        if !self.starts.iter().all(|v| levels::field_of(*v).is_some()) {
            return Err(Reason::Level);
        }
        Ok(())
    }

    // Whether each list is as long as it needs to be: n of the stations', T of the records', n times T of the counts.
    fn check_lengths(&self, total: usize) -> Result<(), Reason>
        requires { (total ≤ 2040) × (total ≡ first_given (handed self.now) self.now.n) }
        ensures { result ≡ fault_of (lengths_tests (handed self.now)) }
    {
        let n = usize::from(self.n);
        let lists = [
            (n, self.counts.len()),
            (n, self.starts.len()),
            (total, self.origins.len()),
            (total, self.numbers.len()),
            (total, self.levels.len()),
            (total * n, self.stamps.len()),
        ];
        if lists.iter().any(|(needs, has)| has < needs) {
            return Err(Reason::TooShort);
        }
        if lists.iter().any(|(needs, has)| needs < has) {
            return Err(Reason::TooLong);
        }
        Ok(())
    }

    // The first refusal among the records, in file order.
    fn check_records(&self) -> Result<(), Refusal>
        requires { (self.now.n ≤ 8) × (length self.now.origins.now ≤ 2040) × (length self.now.origins.now ≡ first_given (handed self.now) self.now.n) }
        ensures { result ≡ scanned_given (handed self.now) }
    {
        // A room for the largest recording, of which the front is used: fixed memory, no heap.
        let mut rows = [0; CELLS];
        self.lay_stamps(&mut rows);
        let tabled = Tabled {
            given: *self,
            tables: Tables {
                n: usize::from(self.n),
                counts: events_of(self.counts),
                firsts: firsts_of(self.counts),
                rows: &rows,
            },
        };
        tabled.check_records()
    }

    // The stamps handed in, in rows of eight places, into the front of `rows`. The reader's of this name promises otherwise, and says why they are two.
    fn lay_stamps(&self, rows: &mut [u16; CELLS])
        requires { (self.now.n ≤ 8) × (length self.now.origins.now ≤ 2040) }
        ensures { StampsLaid (handed self.now) rows.new }
    {
        let n = usize::from(self.n);
        for r in 0..self.origins.len() {
            for q in 0..n {
                rows[8 * r + q] = item(self.stamps, r * n + q, 0);
            }
        }
    }
}

// The events of each station, 0 beyond the counts handed in.
fn events_of(counts: &[u8]) -> [u16; 8]
    ensures { result ≡ tab 8 (at counts.now) }
{
    array::from_fn(|p| u16::from(item(counts, p, 0)))
}

// The records before those of each station; each count is a byte.
fn firsts_of(counts: &[u8]) -> [usize; 9]
    ensures sums { (p : ℕ) → p < 9 → (at result p ≡ sum_to p (at counts.now)) × (at result p ≤ 2040) }
    ensures bytes { (p : ℕ) → at counts.now p < 256 }
{
    faults::firsts_of(&events_of(counts))
}

// The item at i, `past` past the end of the list: the library's chain, named for the many places here. It stays here: `engine` and `recording` need it for
// a list or two, where it is a line, and no crate below them and this one is about such lists (`bits` is about bits).
pub(crate) fn item<T: Copy>(list: &[T], i: usize, past: T) -> T
    ensures { result ≡ get_or list.now i past }
{
    list.get(i).copied().unwrap_or(past)
}
