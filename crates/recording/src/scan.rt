// The checks of records, in file order, whatever they are checked against.
ghost use Rattle.std.specs.Prelude.{◌≡◌, ℕ, ◌<◌};
ghost use Rattle.cuts.specs.Cut.{at};
ghost use Rattle.recording.specs.Check.{scan_to};
ghost use Rattle.recording.specs.Fault.{scanned_faults};
ghost use Rattle.refusal.specs.Refusal.{Tested, at_record};

use refusal::{Reason, Refusal};

// What is checked record by record.
pub trait Records {
    ghost wrong: { Self → ℕ → ℕ → Tested };

    // What is wrong with event e + 1 of the station at place p, if anything.
    fn fault(&self, p: u8, e: u16) -> Result<(), Reason>
        ensures { result ≡ wrong self.now p e };
}

// The first refusal among the records of n stations that have so many events, station by station.
// Inlined, as what it calls is, so that the numbers of a form that is known stay constants in the loops.
#[inline(always)]
pub fn check_records<R: Records>(n: u8, counts: &[u16; 8], records: &R) -> Result<(), Refusal>
    ensures { result ≡ scanned_faults n counts.now (R.wrong records.now) }
{
    for p in 0..n {
        check_station(p, count_at(counts, p), records)?;
    }
    Ok(())
}

// The events of the station at place p, none past the eighth.
fn count_at(counts: &[u16; 8], p: u8) -> u16
    ensures { result ≡ at counts.now p }
{
    counts.get(usize::from(p)).copied().unwrap_or(0)
}

// The first refusal among the records of the station at place p, which has so many events.
#[inline(always)]
fn check_station<R: Records>(p: u8, count: u16, records: &R) -> Result<(), Refusal>
    requires { p < 255 }
    ensures { result ≡ scan_to count (λ e. at_record p e (R.wrong records.now p e)) }
{
    for e in 0..count {
        check_record(p, e, records)?;
    }
    Ok(())
}

// The refusal of event e + 1 of the station at place p, if any.
#[inline(always)]
fn check_record<R: Records>(p: u8, e: u16, records: &R) -> Result<(), Refusal>
    requires { (p < 255) × (e < 65535) }
    ensures { result ≡ at_record p e (R.wrong records.now p e) }
{
    let (station, event) = (p + 1, e + 1);
    records.fault(p, e).map_err(|reason| Refusal {
        reason,
        station,
        event,
    })
}
