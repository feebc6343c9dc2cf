// The fault of one record, worked out of flat tables: of its origin, of its sender's number or of its stamp, whichever comes first.
#![tactic(auto)]

ghost use Rattle.std.specs.Prelude.{◌≡◌, ◌-◌, ◌/◌, ◌≤◌, ◌<◌, length, Ok};
ghost use Rattle.cuts.specs.Below.{sum_to, tab};
ghost use Rattle.cuts.specs.Cut.{at};
ghost use Rattle.faults.specs.Fault.{source_of, Named, sender_at, sender_fault, place_at, stamp_fault, table_fault};
ghost use Rattle.faults.specs.declared.Source.{Source};

use refusal::Reason;

// What a record's origin says of its message: it came from no other station, or from the one with this number.
#[derive(Clone, Copy, Debug, PartialEq, Eq)]
pub enum Source {
    Local,
    From(u8),
}

// Origin 0 is a local step, 1 to 8 name a station, 9 to 15 are refused.
impl TryFrom<u8> for Source {
    type Error = Reason;

    ghost try_from_gives = { λ o r. r ≡ source_of o };

    #[tactic(auto, unfolding(crate::specs::Fault::source_of))]
    fn try_from(origin: u8) -> Result<Source, Reason> {
        match origin {
            0 => Ok(Source::Local),
            1..=8 => Ok(Source::From(origin)),
            9..=15 => Err(Reason::Origin),
            _ => Err(Reason::Origin),
        }
    }
}

impl Source {
    // The place of the station that the message came from; for a local step the record's own.
    #[tactic(auto, unfolding(crate::specs::Fault::sender_at))]
    fn sender(self, own: usize) -> usize
        requires { Named self }
        ensures { result ≡ sender_at self own }
    {
        match self {
            Source::Local => own,
            Source::From(station) => usize::from(station) - 1,
        }
    }
}

// What the records of a recording are checked against: n stations with so many events each, the number of records before those of each station, and the
// stamps in rows of eight places. Arrays of eight and nine with n beside them stay: fixed memory, no heap. `firsts` follows from `counts` (`firsts_of`), but it is
// handed in, added up once for all records: both callers find the places of their own records in it too.
#[derive(Clone, Copy, Debug, PartialEq, Eq)]
pub struct Tables<'a> {
    pub n: usize,
    pub counts: [u16; 8],
    pub firsts: [usize; 9],
    pub rows: &'a [u16],
}

// The records before those of each station, which have so many events; the last is T.
pub fn firsts_of(counts: &[u16; 8]) -> [usize; 9]
    ensures { result ≡ tab 9 (λ p. sum_to p (at counts.now)) }
{
    let mut firsts = [0; 9];
    for p in 0..8 {
        firsts[p + 1] = firsts[p] + usize::from(counts[p]);
    }
    firsts
}

impl<'a> Tables<'a> {
    // What is wrong with event e + 1 of the station at place p, which has the origin o and the sender's number k: its origin, its number or its stamp,
    // whichever comes first. Its stamp where p is no station's place, or the rows do not have the stamps. What it is handed travels together nowhere else.
    #[tactic(auto, unfolding(crate::specs::Fault::table_fault, crate::specs::Fault::source_fault, crate::specs::Fault::sender_fault, crate::specs::Fault::sender_at, crate::specs::Fault::local_fault, crate::specs::Fault::receipt_fault, crate::specs::Fault::source_of))]
    pub fn message_fault(&self, o: u8, k: usize, p: usize, e: usize) -> Result<(), Reason>
        ensures { result ≡ table_fault self.now.n self.now.counts self.now.firsts self.now.rows.now o k p e }
    {
        if 8 < self.n || self.n <= p {
            return Err(Reason::Stamp);
        }
        let source = Source::try_from(o)?;
        self.sender_fault(source, k, p)?;
        self.stamp_fault(p, self.firsts[p], e, self.firsts[source.sender(p)], k)
    }

    // What the origin or the sender's number k breaks.
    #[tactic(auto, unfolding(crate::specs::Fault::sender_fault))]
    fn sender_fault(&self, source: Source, k: usize, p: usize) -> Result<(), Reason>
        requires { (p < 8) × Named source }
        ensures { result ≡ sender_fault self.now.n self.now.counts p (Ok source) k }
    {
        match source {
            Source::Local if k == 0 => Ok(()),
            Source::Local => Err(Reason::Number),
            Source::From(station) => self.receipt_fault(usize::from(station), k, p),
        }
    }

    // What a receipt from `station`, 1 to 8, with the sender's number k breaks.
    #[tactic(auto, unfolding(crate::specs::Fault::sender_fault))]
    fn receipt_fault(&self, station: usize, k: usize, p: usize) -> Result<(), Reason>
        requires { (p < 8) × (1 ≤ station) × (station ≤ 8) }
        ensures { result ≡ sender_fault self.now.n self.now.counts p (Ok (Source.From station)) k }
    {
        if self.n < station || station == p + 1 {
            return Err(Reason::Origin);
        }
        if k == 0 || usize::from(self.counts[station - 1]) < k {
            return Err(Reason::Number);
        }
        Ok(())
    }

    // Whether the stamp of event e + 1 follows from the one before it and that of event k of the station whose records begin at `sender`. What it is handed travels together nowhere else.
    #[tactic(auto, unfolding(crate::specs::Fault::stamp_fault, crate::specs::Fault::has))]
    fn stamp_fault(
        &self,
        p: usize,
        first: usize,
        e: usize,
        sender: usize,
        k: usize,
    ) -> Result<(), Reason>
        requires { self.now.n ≤ 8 }
        ensures { result ≡ stamp_fault self.now.n self.now.rows.now p first e sender k }
    {
        if self.left(first) <= e || self.left(sender) < k {
            return Err(Reason::Stamp);
        }
        for q in 0..self.n {
            let before = self.place(first, e, q);
            let sent = self.place(sender, k, q);
            if self.place(first, e + 1, q) != before.max(sent) + usize::from(p == q) {
                return Err(Reason::Stamp);
            }
        }
        Ok(())
    }

    // The stamps that the rows have from the one numbered `first` on.
    fn left(&self, first: usize) -> usize
        ensures { result ≡ length self.now.rows.now / 8 - first }
    {
        (self.rows.len() / 8).saturating_sub(first)
    }

    // Place q of the stamp of event e of the station whose records begin at `first`.
    #[tactic(auto, unfolding(crate::specs::Fault::place_at))]
    fn place(&self, first: usize, e: usize, q: usize) -> usize
        requires { (q < 8) × (e ≤ length self.now.rows.now / 8 - first) }
        ensures { (result ≡ place_at self.now.rows.now first e q) × (result < 65536) }
    {
        if e == 0 {
            return 0;
        }
        usize::from(self.rows[8 * (first + (e - 1)) + q])
    }
}
