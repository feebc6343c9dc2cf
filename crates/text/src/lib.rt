// The printed text of a reply, put into a lent room where it fits: its length first, then its lines one after the other. Where the room is too short nothing
// is put into it, which `write!` does not promise.
#![tactic(auto)]

ghost use Rattle.std.specs.Prelude.{◌≡◌, ◌+◌, ◌≤◌, ◌<◌, length, option_map, MatchOption, decimal};
ghost use Rattle.cut.specs.Value.{counts_of};
ghost use Rattle.text.specs.Text.{poss_text, def_text, refused_text, verdict_text, Printed};
ghost use Rattle.text.specs.Written.{line_of, Written};

use cut::Cut;
use itoa::{Buffer, Integer};

// A line: its word, then numbers with a space before each, then a newline.
#[derive(Clone, Copy, Debug, PartialEq, Eq)]
struct Line<'a, T> {
    word: &'a [u8],
    numbers: &'a [T],
}

// The line of a refusal and its length; None, and nothing is changed, where the room is too short. Numbers are handed in, no `Refusal`: the text rests on no
// crate that knows reasons.
pub fn refused(number: u8, station: u8, event: u16, room: &mut [u8]) -> Option<usize>
    ensures { Printed (refused_text number station event) room.old result room.new }
{
    let numbers = [u16::from(number), u16::from(station), event];
    let line = Line {
        word: b"refused",
        numbers: &numbers,
    };
    line.left_of(room.len())?;
    Some(line.put(room, 0))
}

// The two lines of verdicts and their length; None, and nothing is changed, where the room is too short. The witness is there where Poss is yes,
// the path where Def is no.
pub fn verdicts(witness: Option<Cut>, path: Option<&[u8]>, room: &mut [u8]) -> Option<usize>
    ensures { Printed (verdict_text (option_map counts_of witness) (option_map (λ p. p.now) path.entry)) room.old result room.new }
{
    let poss = poss_line(&witness);
    let def = def_line(path);
    let left = poss.left_of(room.len())?;
    def.left_of(left)?;
    let next = poss.put(room, 0);
    Some(def.put(room, next))
}

// The first line.
fn poss_line(witness: &Option<Cut>) -> Line<'_, u16>
    ensures { line_of decimal result.word.now result.numbers.now ≡ poss_text (option_map counts_of witness.now) }
{
    match witness {
        Some(cut) => witness_line(counts(cut)),
        None => Line {
            word: b"poss no",
            numbers: &[],
        },
    }
}

// The counts of a cut: the first n, at most eight.
fn counts(cut: &Cut) -> &[u16]
    ensures { result.now ≡ counts_of cut.now }
{
    let n = usize::from(cut.n).min(8);
    &cut.counts[..n]
}

// The first line of a witness.
fn witness_line(counts: &[u16]) -> Line<'_, u16>
    ensures { line_of decimal result.word.now result.numbers.now ≡ poss_text (Some counts.now) }
{
    Line {
        word: b"poss yes",
        numbers: counts,
    }
}

// The second line.
fn def_line(path: Option<&[u8]>) -> Line<'_, u8>
    ensures { line_of decimal result.word.now result.numbers.now ≡ def_text (option_map (λ p. p.now) path.entry) }
{
    match path {
        Some(stations) => path_line(stations),
        None => Line {
            word: b"def yes",
            numbers: &[],
        },
    }
}

// The second line of a path.
fn path_line(stations: &[u8]) -> Line<'_, u8>
    ensures { line_of decimal result.word.now result.numbers.now ≡ def_text (Some stations.now) }
{
    Line {
        word: b"def no",
        numbers: stations,
    }
}

impl<'a, T: Integer> Line<'a, T> {
    // What the line leaves of as many bytes, None where it does not fit.
    fn left_of(self, all: usize) -> Option<usize>
        ensures { let bytes = length (line_of T.text self.entry.word.now self.entry.numbers.now) in
            MatchOption result (all < bytes) (λ left. left + bytes ≡ all) }
    {
        let mut left = all.checked_sub(self.word.len() + 1)?;
        let mut digits = Buffer::new();
        for x in self.numbers {
            left = left.checked_sub(1 + digits.format(*x).len())?;
        }
        Some(left)
    }

    // Puts the line at a place of a room where it fits; the place behind it.
    fn put(self, room: &mut [u8], at: usize) -> usize
        requires { at + length (line_of T.text self.word.now self.numbers.now) ≤ length room.old }
        ensures { Written (line_of T.text self.entry.word.now self.entry.numbers.now) room.old at result room.new }
    {
        let mut next = put_bytes(room, at, self.word);
        let mut digits = Buffer::new();
        for x in self.numbers {
            next = put_bytes(room, next, b" ");
            next = put_bytes(room, next, digits.format(*x).as_bytes());
        }
        put_bytes(room, next, b"\n")
    }
}

// Bytes as they stand.
fn put_bytes(room: &mut [u8], at: usize, bytes: &[u8]) -> usize
    requires { at + length bytes.now ≤ length room.old }
    ensures { Written bytes.now room.old at result room.new }
{
    let next = at + bytes.len();
    room[at..next].copy_from_slice(bytes);
    next
}
