// What the fields of a packed recording hold, and its tables laid out flat.
ghost use Rattle.std.specs.Prelude.{◌≡◌, ◌++◌, ◌+◌, ◌*◌, ◌≤◌, ◌<◌, length, drop};
ghost use Rattle.cuts.specs.Below.{tab};
ghost use Rattle.recording.specs.Form.{first_at, lead8, width8};
ghost use Rattle.recording.specs.Decode.{events_at, records_to, start_cell, level_cell, stamp_cell};
ghost use Rattle.recording.specs.Packed.{over, n_of};
ghost use Rattle.recording.specs.Decoded.{RowsLaid};

use crate::Form;
use std::array;

// The most records that a recording can have: eight stations with 511 events each, as many as nine bits can count.
pub const RECORDS: usize = 4088;

// The places of the largest table of stamps, eight for each of those records. Arrays of fixed length, here and below, of which the front is used, stay: fixed
// memory, no heap.
pub const CELLS: usize = 32704;

// The lent bytes of a recording, in a form.
#[derive(Clone, Copy, Debug, PartialEq, Eq)]
pub struct Packed<'a> {
    pub form: Form,
    pub bytes: &'a [u8],
}

impl<'a> Packed<'a> {
    // The bytes in the form of document 01.
    pub fn of(bytes: &'a [u8]) -> Packed<'a>
        ensures { (result.form.lead ≡ lead8) × (result.form.width ≡ width8) × (result.bytes ≡ bytes.entry) }
    {
        Packed {
            form: Form::of_today(),
            bytes,
        }
    }

    // n. Whoever asks for many stations or records reads it once, and hands it to the methods that answer.
    pub fn stations(self) -> u8
        ensures { (result ≡ n_of self.entry) × (result < 16) }
    {
        bits::peek(self.bytes, self.form.lead - 4, 4) as u8
    }

    // m of the station at place p, 0 beyond n.
    fn events(self, n: u8, p: u8) -> u16
        ensures { (result ≡ over self.entry events_at n p) × (result < 512) }
    {
        if p < n {
            return bits::peek(self.bytes, self.form.station_bit(p), self.form.width);
        }
        0
    }

    // m of each station, 0 beyond n.
    pub fn counts(self, n: u8) -> [u16; 8]
        ensures { result ≡ tab 8 (over self.entry events_at n) }
    {
        array::from_fn(|p| self.events(n, p as u8))
    }

    // The records before those of each station; the last is T.
    pub fn firsts(self, n: u8) -> [usize; 9]
        ensures { result ≡ tab 9 (over self.entry records_to n) }
    {
        faults::firsts_of(&self.counts(n))
    }

    // T, for at most eight stations.
    pub fn total(self) -> u16
        requires { n_of self ≤ 8 }
        ensures { (result ≡ over self.entry first_at (n_of self.entry)) × (result ≤ 4088) }
    {
        self.firsts(self.stations())[8] as u16
    }

    // The excess number of the start level of the station at place p, 0 beyond n.
    fn start(self, n: u8, p: u8) -> u16
        ensures { result ≡ over self.entry start_cell n p }
    {
        if p < n {
            return levels::excess(bits::peek(self.bytes, self.form.start_bit(p), 12));
        }
        0
    }

    // The excess numbers of eight start levels, 0 beyond n.
    pub fn starts(self, n: u8) -> [u16; 8]
        ensures { result ≡ tab 8 (over self.entry start_cell n) }
    {
        array::from_fn(|p| self.start(n, p as u8))
    }

    // Count q of the stamp of record r, 0 beyond n.
    fn stamp_count(self, n: u8, r: u16, q: u8) -> u16
        requires { q < 8 }
        ensures { result ≡ over self.entry stamp_cell n (8 * r + q) }
    {
        if q < n {
            return bits::peek(self.bytes, self.form.stamp_bit(n, r, q), self.form.width);
        }
        0
    }

    // The table of stamps into the front of `out`, eight places a record. The writer's of this name lays n places of a row and keeps the others: one function for
    // both would take the width and a closure, and is no plainer than two loops.
    pub fn lay_stamps(self, out: &mut [u16; CELLS])
        requires { n_of self ≤ 8 }
        ensures { RowsLaid self.entry.form.lead self.entry.form.width self.entry.bytes.now out.new }
    {
        let n = self.stations();
        for r in 0..self.total() {
            for q in 0..8u8 {
                out[8 * usize::from(r) + usize::from(q)] = self.stamp_count(n, r, q);
            }
        }
    }

    // The table of levels into the front of `out`.
    pub fn lay_levels(self, total: u16, out: &mut [u16])
        requires { total ≤ length out.old }
        ensures { out.new ≡ tab total (over self.entry level_cell (n_of self.entry)) ++ drop total out.old }
    {
        let n = self.stations();
        for (r, level) in out[..usize::from(total)].iter_mut().enumerate() {
            let at = self.form.level_bit(n, r as u16);
            *level = levels::excess(bits::peek(self.bytes, at, 12));
        }
    }
}
