// The marks of a box from flat tables, and the verdicts, the witness and the path read off them.
#![tactic(auto)]

ghost use Rattle.std.specs.Prelude.{◌≡◌, ◌+◌, ◌≤◌, false, true, length, MatchOption};
ghost use Rattle.cuts.specs.Below.{every};
ghost use Rattle.cuts.specs.Cut.{at};
ghost use Rattle.marks.specs.Flat.{row_there, can_settle, Settles};

use cut::Cut;
use frame::Frame;

mod frame;

// What is to be settled: a recording as its full cut, where each station's rows of the tables begin, from where to where a sum satisfies, and the two tables.
// They lie flat, eight needs and one weight a row, as `Settles` has them.
#[derive(Clone, Copy, Debug, PartialEq, Eq)]
pub struct Task<'a> {
    pub full: Cut,
    pub bases: [usize; 8],
    pub least: usize,
    pub most: usize,
    pub needs: &'a [u16],
    pub weights: &'a [u16],
}

// Both verdicts: the witness of Poss, if it is yes, and Def.
#[derive(Clone, Copy, Debug, PartialEq, Eq)]
pub struct Verdicts {
    pub witness: Option<Cut>,
    pub def: bool,
}

impl<'a> Task<'a> {
    // The marks of the box into the front of their room, both verdicts read off them, and where Def is no the path into the front of its room.
    // Where the box is none that can be settled there are no verdicts, and the rooms stay as they were.
    pub fn settle(self, marks: &mut [u8], path: &mut [u8]) -> Option<Verdicts>
        ensures { Settles self.entry marks.old path.old result marks.new path.new }
    {
        let frame = self.frame(marks.len(), path.len())?;
        Some(frame.settle(marks, path))
    }

    // The frame of the task, where its box can be settled in rooms of so many bytes.
    fn frame(self, marks: usize, path: usize) -> Option<Frame<'a>>
        ensures { MatchOption result (can_settle self.entry marks path ≡ false) (λ f. (can_settle self.entry marks path ≡ true) × (f.task ≡ self.entry)) }
    {
        let size = cut::box_of(self.full);
        if !(1..=65536).contains(&size) {
            return None;
        }
        if size <= marks && cut::events(self.full) <= path && self.covered() {
            return Some(Frame::new(self, size));
        }
        None
    }

    // Whether the tables have the rows of every station.
    fn covered(&self) -> bool
        requires { self.now.full.n ≤ 8 }
        ensures { result ≡ every self.now.full.n (λ p. row_there (length self.now.needs.now) (length self.now.weights.now) (at self.now.bases p + at self.now.full.counts p)) }
    {
        (0..usize::from(self.full.n)).all(|p| self.has_row(self.bases[p], self.full.counts[p]))
    }

    // Whether the tables have row base + e: eight cells and one number.
    fn has_row(&self, base: usize, e: u16) -> bool
        ensures { result ≡ row_there (length self.now.needs.now) (length self.now.weights.now) (base + e) }
    {
        let row = base.saturating_add(usize::from(e));
        row < self.weights.len() && row < self.needs.len() / 8
    }
}
