// What a job's recording and condition ask of each other and of the rooms.
ghost use Rattle.std.specs.Prelude.{◌≡◌};
ghost use Rattle.cut.specs.Value.{box_of, events_of};
ghost use Rattle.recording.specs.Check.{fault_of};
ghost use Rattle.engine.specs.Job.{none_above, room_tests};

use condition::Condition;
use cut::Cut;
use refusal::Reason;

// The first test that fails, if one does.
pub fn check(c: Condition, full: Cut, marks: usize, path: usize) -> Result<(), Reason>
    ensures { result ≡ fault_of (room_tests c full.n (box_of full) (events_of full) marks path) }
{
    if !none_above(c, full.n) {
        return Err(Reason::Asked);
    }
    let b = cut::box_of(full);
    if 65536 < b {
        return Err(Reason::BoxSize);
    }
    if marks < b {
        return Err(Reason::MarksRoom);
    }
    if path < cut::events(full) {
        return Err(Reason::PathRoom);
    }
    Ok(())
}

// Whether no station above n is asked.
fn none_above(c: Condition, n: u8) -> bool
    ensures { result ≡ none_above c n }
{
    // A chain of `skip` and `all` says the same: tried, and its proof did not close.
    for p in usize::from(n)..8 {
        if c.windows[p].asked {
            return false;
        }
    }
    true
}
