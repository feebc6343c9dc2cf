// The checks of a recording: of the whole, then record by record in file order.
ghost use Rattle.std.specs.Prelude.{◌≡◌, ◌&&◌, ◌≤◌, ◌<◌, ltb};
ghost use Rattle.cuts.specs.Cut.{at};
ghost use Rattle.recording.specs.Form.{recording_of};
ghost use Rattle.recording.specs.Check.{checked_records};
ghost use Rattle.recording.specs.Decode.{Laid};
ghost use Rattle.recording.specs.Packed.{over, n_of};
ghost use Rattle.recording.specs.Decoded.{RowsLaid, CheckedRows};
ghost use Rattle.recording.specs.Fault.{form_fault, end_fault, fault_at, fault_in};

use crate::bytes_for;
use crate::packed::{CELLS, Packed};
use crate::scan::{Records, check_records};
use faults::Tables;
use refusal::{Reason, Refusal};

impl<'a> Packed<'a> {
    // The checks in the written order, with a room for the table of stamps, which stands in front of it where the recording is accepted.
    // Inlined where the form is made, so that its numbers are constants in the loops.
    #[inline(always)]
    pub fn check_rows(self, rows: &mut [u16; CELLS]) -> Result<(), Refusal>
        ensures { CheckedRows self.entry.form.lead self.entry.form.width self.entry.bytes.now result rows.new }
    {
        self.check_form()?;
        self.lay_stamps(rows);
        self.tabled(rows).check_records()
    }

    // The first test of the whole that fails. Stations' parts that are cut short are not looked for: the whole is too short then, which has the same
    // number.
    fn check_form(self) -> Result<(), Reason>
        ensures { result ≡ over self.entry form_fault }
    {
        if self.bytes.is_empty() {
            return Err(Reason::TooShort);
        }
        let n = self.stations();
        if n < 1 || 8 < n {
            return Err(Reason::Stations);
        }
        check_end(self.bytes, self.form.record_bit(n, self.total()))
    }

    // The recording with the tables that its records are checked against, whose rows are laid.
    fn tabled(self, rows: &'a [u16]) -> Tabled<'a>
        requires { (1 ≤ n_of self) × RowsLaid self.form.lead self.form.width self.bytes.now rows.now }
        ensures { result.packed ≡ self.entry }
    {
        let n = self.stations();
        Tabled {
            packed: self,
            tables: Tables {
                n: usize::from(n),
                counts: self.counts(n),
                firsts: self.firsts(n),
                rows,
            },
        }
    }
}

// A packed recording of one to eight stations, with the tables that its records are checked against.
#[derive(Clone, Copy, Debug, PartialEq, Eq)]
struct Tabled<'a> {
    packed: Packed<'a>,
    tables: Tables<'a>,
    ghost laid: { Laid packed.form.lead packed.form.width packed.bytes.now tables.n tables.counts tables.firsts tables.rows.now },
}

impl<'a> Tabled<'a> {
    // The first refusal among the records.
    fn check_records(&self) -> Result<(), Refusal>
        ensures { result ≡ checked_records (over self.now.packed recording_of) }
    {
        check_records(self.tables.n as u8, &self.tables.counts, self)
    }

    // Whether the station at place p has an event e + 1. The writer's has the same words of its own tables, as each impl of `Records` says where its records end:
    // a method of `Tables` would be one more public function, for one line.
    fn has(&self, p: u8, e: u16) -> bool
        ensures { result ≡ (ltb p self.now.tables.n && ltb e (at self.now.tables.counts p)) }
    {
        usize::from(p) < self.tables.n && e < self.tables.counts[usize::from(p)]
    }

    // The first test that fails of event e + 1 of the station at place p.
    fn record_fault(&self, p: u8, e: u16) -> Result<(), Reason>
        requires { (p < self.now.tables.n) × (e < at self.now.tables.counts p) }
        ensures { result ≡ fault_at (over self.now.packed recording_of) p e }
    {
        let packed = self.packed;
        let (p, e) = (usize::from(p), usize::from(e));
        let r = self.tables.firsts[p] + e;
        let start = packed.form.record_bit(self.tables.n as u8, r as u16);
        let o = bits::peek(packed.bytes, start, 4) as u8;
        let k = bits::peek(packed.bytes, start + 4, packed.form.width);
        self.tables.message_fault(o, usize::from(k), p, e)
    }
}

impl<'a> Records for Tabled<'a> {
    ghost wrong = { λ t p e. fault_in t.tables.n t.tables.counts (fault_at (over t.packed recording_of)) p e };

    #[inline(always)]
    #[tactic(auto, unfolding(crate::specs::Fault::fault_in))]
    fn fault(&self, p: u8, e: u16) -> Result<(), Reason> {
        if self.has(p, e) {
            return self.record_fault(p, e);
        }
        Ok(())
    }
}

// The first of the last tests of the whole that fails, where the recording ends at the bit `end`.
fn check_end(s: &[u8], end: usize) -> Result<(), Reason>
    requires { end ≤ 200000000 }
    ensures { result ≡ end_fault s.now end }
{
    let needed = bytes_for(end);
    if s.len() < needed {
        return Err(Reason::TooShort);
    }
    if needed < s.len() {
        return Err(Reason::TooLong);
    }
    if bits::peek(s, end, 8 * needed - end) != 0 {
        return Err(Reason::Padding);
    }
    Ok(())
}
