// The printed text of the reply to a job.
#![tactic(auto)]

ghost use Rattle.std.specs.Prelude.{◌≡◌, ◌≤◌, length};
ghost use Rattle.text.specs.Text.{Printed};
ghost use Rattle.reply.specs.Answer.{text_of};
ghost use Rattle.reply.specs.Told.{events_in, Tells};

use marks::Verdicts;
use refusal::Refusal;

// The printed text of the reply to a job, into the front of the room, and its length; None, and nothing is changed, where the room is too short.
pub fn answer(job: &[u8], room: &mut [u8]) -> Option<usize>
    ensures { Printed (text_of job.now) room.old result room.new }
{
    // Rooms of fixed length, of which the front is used: fixed memory, no heap.
    let mut marks = [0u8; 65536];
    let mut path = [0u8; recording::RECORDS];
    let reply = engine::judge(job, &mut marks, &mut path);
    print(job, reply, &path, room)
}

// The same of a reply, whose path is in the path room.
fn print(
    job: &[u8],
    reply: Result<Verdicts, Refusal>,
    path: &[u8],
    room: &mut [u8],
) -> Option<usize>
    requires { Tells job.now reply path.now }
    ensures { Printed (text_of job.now) room.old result room.new }
{
    match reply {
        Err(x) => text::refused(x.reason.number(), x.station, x.event, room),
        Ok(v) if v.def => text::verdicts(v.witness, None, room),
        Ok(v) => text::verdicts(v.witness, Some(&path[..events_in(job)]), room),
    }
}

// T of a job's recording.
fn events_in(job: &[u8]) -> usize
    requires { 38 ≤ length job.now }
    ensures { result ≡ events_in job.now }
{
    cut::events(recording::full_cut(&job[38..]))
}
