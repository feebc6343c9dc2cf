// The reply to a job: both verdicts with their evidence.
#![tactic(auto)]

ghost use Rattle.std.specs.Prelude.{◌≡◌, replicate, MatchResult, Err};
ghost use Rattle.recording.specs.Form.{lead8, width8};
ghost use Rattle.recording.specs.Check.{checked_of};
ghost use Rattle.engine.specs.Job.{Judged};
ghost use Rattle.engine.specs.Computed.{Laid};

use marks::Verdicts;
use recording::DecodeError;
use refusal::Refusal;

mod needs;
mod rooms;
mod tables;
mod verdict;
mod weights;

// An accepted recording: its bytes, with the tables of its stamps and levels.
#[derive(Clone, Copy, Debug, PartialEq, Eq)]
struct Accepted<'a> {
    bytes: &'a [u8],
    stamps: &'a [u16],
    levels: &'a [u16],
    ghost laid: { Laid bytes.now stamps.now levels.now },
}

// Both verdicts of a job, its marks and, where Def is no, its path; or the refusal, and nothing changed.
pub fn judge(job: &[u8], marks: &mut [u8], path: &mut [u8]) -> Result<Verdicts, Refusal>
    ensures { Judged job.now marks.old path.old result marks.new path.new }
{
    let condition = condition::read(job)?;
    let s = &job[38..];
    // Rooms of fixed length, here and in `verdict`, of which the front is used: fixed memory, no heap.
    let mut stamps = [0u16; recording::CELLS];
    let mut levels = [0u16; recording::RECORDS];
    decode(s, &mut stamps, &mut levels)?;
    let accepted = Accepted {
        bytes: s,
        stamps: &stamps,
        levels: &levels,
    };
    verdict::verdicts(condition, accepted, marks, path)
}

// The tables of a recording, in rooms that suffice for any.
fn decode(s: &[u8], stamps: &mut [u16], levels: &mut [u16]) -> Result<(), Refusal>
    requires { (stamps.old ≡ replicate 32704 0) × (levels.old ≡ replicate 4088 0) }
    ensures { MatchResult result (λ _. Laid s.now stamps.new levels.new) (λ x. checked_of lead8 width8 s.now ≡ Err x) }
{
    match recording::decode(s, stamps, levels) {
        Ok(()) => Ok(()),
        Err(DecodeError::Refused(x)) => Err(x),
        Err(DecodeError::Short) => unreachable!(),
    }
}
