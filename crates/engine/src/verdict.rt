// The reply to an accepted recording and a condition: the refusals from the condition's on, or the verdicts.
ghost use Rattle.condition.specs.Weigh.{limits_of};
ghost use Rattle.engine.specs.Prepare.{Shifts};
ghost use Rattle.engine.specs.Computed.{Answered};

use crate::{Accepted, rooms, tables};
use condition::{Condition, Limits};
use marks::{Task, Verdicts};
use refusal::Refusal;

// The verdicts on a condition and an accepted recording, marks and path filled; or the refusal, and nothing changed.
pub fn verdicts(
    c: Condition,
    accepted: Accepted,
    marks: &mut [u8],
    path: &mut [u8],
) -> Result<Verdicts, Refusal>
    ensures { Answered c accepted.entry.bytes.now marks.old path.old result marks.new path.new }
{
    let full = recording::full_cut(accepted.bytes);
    rooms::check(c, full, marks.len(), path.len())?;
    let mut needed = [0u16; 32768];
    let mut added = [0u16; 4096];
    let bases = tables::lay(c, accepted, full, &mut needed, &mut added);
    let limits = sum_limits(c);
    let task = Task {
        full,
        bases,
        least: limits.least,
        most: limits.most,
        needs: &needed,
        weights: &added,
    };
    Ok(task.settle(marks, path).unwrap())
}

// The limits of the sum itself: those of a condition are 32,768 above. No sum lies from 1 to 0.
fn sum_limits(c: Condition) -> Limits
    ensures { Shifts (limits_of c) result }
{
    let l = condition::limits_of(c);
    if l.most < 32768 {
        return Limits { least: 1, most: 0 };
    }
    Limits {
        least: l.least.saturating_sub(32768),
        most: l.most - 32768,
    }
}
