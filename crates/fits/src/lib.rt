// How long the text of a reply can be, and the text in a room that always suffices: what the programs print from.
#![tactic(auto)]

ghost use Rattle.std.specs.Prelude.{◌≡◌, ◌≤◌, length, take};
ghost use Rattle.text.specs.Text.{text_in};
ghost use Rattle.reply.specs.Answer.{text_of};

// No reply has a longer text (`text_fits`).
pub const LONGEST: usize = 4140;

// The text of the reply to a job, into the front of the room; its length.
pub fn printed(job: &[u8], room: &mut [u8; LONGEST]) -> usize
    ensures value { (result ≡ length (text_of job.now)) × (take result room.new ≡ text_of job.now) }
    ensures room_after { room.new ≡ text_in (text_of job.now) room.old }
    ensures prefix_len { (result ≤ length room.new) × (result ≡ length (take result room.new)) }
{
    reply::answer(job, room).unwrap()
}
