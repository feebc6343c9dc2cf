// The checks of the records handed in, in file order.
ghost use Rattle.std.specs.Prelude.{◌≡◌, ◌&&◌, ◌<◌, ltb};
ghost use Rattle.cuts.specs.Cut.{at};
ghost use Rattle.recording.specs.Fault.{fault_in};
ghost use Rattle.writer.specs.Write.{handed};
ghost use Rattle.writer.specs.Tables.{Laid, before_level, level_fault, given_fault, scanned_given};

use crate::{Given, item};
use faults::Tables;
use recording::Records;
use refusal::{Reason, Refusal};

// What is handed in, of at most eight stations and with as many records as they have, and the tables that the records are checked against.
#[derive(Clone, Copy, Debug, PartialEq, Eq)]
pub struct Tabled<'a, 't> {
    pub given: Given<'a>,
    pub tables: Tables<'t>,
    pub ghost laid: { Laid (handed given) tables },
}

impl<'a, 't> Tabled<'a, 't> {
    // The first refusal among the records.
    pub fn check_records(&self) -> Result<(), Refusal>
        ensures { result ≡ scanned_given (handed self.now.given) }
    {
        recording::check_records(self.given.n, &self.tables.counts, self)
    }

    // Whether the station at place p has an event e + 1. The reader's has the same words of its own tables, and says why they are two.
    fn has(&self, p: u8, e: u16) -> bool
        ensures { result ≡ (ltb p self.now.given.n && ltb e (at self.now.tables.counts p)) }
    {
        p < self.given.n && e < self.tables.counts[usize::from(p)]
    }

    // The first test that fails of event e + 1 of the station at place p.
    fn record_fault(&self, p: u8, e: u16) -> Result<(), Reason>
        requires { (p < self.now.given.n) × (e < at self.now.tables.counts p) }
        ensures { result ≡ given_fault (handed self.now.given) p e }
    {
        let (p, e) = (usize::from(p), usize::from(e));
        let r = self.tables.firsts[p] + e;
        let origin = item(self.given.origins, r, 0);
        let number = item(self.given.numbers, r, 0);
        let fault = self.tables.message_fault(origin, usize::from(number), p, e);
        with_level(fault, item(self.given.levels, r, 0))
    }
}

impl<'a, 't> Records for Tabled<'a, 't> {
    ghost wrong = { λ t p e. fault_in t.given.n t.tables.counts (given_fault (handed t.given)) p e };

    fn fault(&self, p: u8, e: u16) -> Result<(), Reason> {
        if self.has(p, e) {
            return self.record_fault(p, e);
        }
        Ok(())
    }
}

// A record's fault where its level is looked at too: behind its origin and its sender's number, before its stamp.
#[tactic(auto, using(crate::proofs::WriterLaws::level_passes, crate::proofs::WriterLaws::level_found, crate::proofs::WriterLaws::level_fails, crate::proofs::WriterLaws::level_alone))]
fn with_level(fault: Result<(), Reason>, level: i16) -> Result<(), Reason>
    ensures { result ≡ level_fault fault level }
{
    if levels::field_of(level).is_some() {
        return fault;
    }
    match fault {
        Err(reason) if is_before_level(reason) => fault,
        _ => Err(Reason::Level),
    }
}

// Whether what is wrong with a record is found before its level is looked at.
#[tactic(auto, unfolding(crate::specs::Tables::before_level))]
fn is_before_level(reason: Reason) -> bool
    ensures { result ≡ before_level reason }
{
    matches!(reason, Reason::Origin | Reason::Number)
}
