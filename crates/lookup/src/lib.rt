// The lookup of one record of a packed recording, after the recording's checks.
// `as` narrows only what is proved to fit; `try_from` would add an error that cannot occur.
#![tactic(auto)]

ghost use Rattle.std.specs.Prelude.{◌≡◌, ◌&&◌, ◌+◌, ◌-◌, ◌≤◌, ◌<◌, leb, sum, take};
ghost use Rattle.cuts.specs.Below.{tab};
ghost use Rattle.cuts.specs.Cut.{at};
ghost use Rattle.recording.specs.Form.{m_at, record_bit, recording_of, lead8, width8};
ghost use Rattle.recording.specs.Decode.{full_of};
ghost use Rattle.lookup.specs.Lookup.{lookup_of, found_of, counted};

use cut::Cut;
use recording::Form;
use refusal::{Reason, Refusal};

// One record: the places of its stamp beyond n are 0, and event 0 has origin 0 and number 0, as the law says (`found_of`). An array of eight, of which n
// are used, stays: fixed memory, no heap.
#[derive(Clone, Copy, Debug, PartialEq, Eq)]
pub struct Record {
    pub origin: u8,
    pub number: u16,
    pub level: i16,
    pub stamp: [u16; 8],
}

// Event `event` of `station`, after the checks.
#[tactic(auto, unfolding(crate::specs::Lookup::lookup_of, crate::specs::Lookup::looked_up))]
pub fn lookup(s: &[u8], station: u8, event: u16) -> Result<Record, Refusal>
    ensures { result ≡ lookup_of lead8 width8 s.now station event }
{
    recording::check(s)?;
    let full = recording::full_cut(s);
    if !is_recorded(full, station, event) {
        return Err(Refusal::from(Reason::NoRecord));
    }
    Ok(found_at(s, Form::of_today(), full, station - 1, event))
}

// Whether the station is 1 to n, and the event 0 to its m.
fn is_recorded(full: Cut, station: u8, event: u16) -> bool
    requires { full.n ≤ 8 }
    ensures { result ≡ (leb 1 station && leb station full.n && leb event (at full.counts (station - 1))) }
{
    1 <= station && station <= full.n && event <= full.counts[usize::from(station) - 1]
}

// Event e of the station at place p. What it is handed travels together nowhere else. That there are at most eight stations is a bound of one argument, here and in
// what is asked below.
fn found_at(s: &[u8], form: Form, full: Cut, p: u8, e: u16) -> Record
    requires { (full ≡ full_of form.lead form.width s.now) × (full.n ≤ 8) × (p < full.n) × (e ≤ m_at form.lead form.width s.now p) }
    ensures { result ≡ found_of (recording_of form.lead form.width s.now) p e }
{
    if e == 0 {
        return Record {
            origin: 0,
            number: 0,
            level: levels::signed(bits::peek(s, form.start_bit(p), 12)),
            stamp: [0; 8],
        };
    }
    let r = first(full, p) + (e - 1);
    let b = form.record_bit(full.n, r);
    Record {
        origin: bits::peek(s, b, 4) as u8,
        number: bits::peek(s, b + 4, form.width),
        level: levels::signed(bits::peek(s, form.level_bit(full.n, r), 12)),
        stamp: stamp(s, form, full.n, r),
    }
}

// The records before those of the station at place p, where they are no more than a u16 can count.
fn first(full: Cut, p: u8) -> u16
    requires { (p ≤ 8) × (sum (take p full.counts) < 65536) }
    ensures { result ≡ sum (take p full.counts) }
{
    full.counts[..usize::from(p)].iter().sum()
}

// The stamp of record r of n stations', 0 in the places beyond n.
fn stamp(s: &[u8], form: Form, n: u8, r: u16) -> [u16; 8]
    requires { n ≤ 8 }
    ensures { result ≡ tab 8 (counted form.width s.now n (record_bit form.lead form.width n r + 16 + form.width)) }
{
    let mut stamp = [0; 8];
    for q in 0..n {
        stamp[usize::from(q)] = bits::peek(s, form.stamp_bit(n, r, q), form.width);
    }
    stamp
}
