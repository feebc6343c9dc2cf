// A box that can be settled: it is filled row by row of station 1, and the verdicts, the witness and the path are read off the marks.
// The cuts of a row differ in their first count only, and what the other stations need and add is worked out once a row.
// `as` narrows only what is proved to fit; `try_from` would add an error that cannot occur.
ghost use Rattle.std.specs.Prelude.{◌≡◌, not, ◌&&◌, ◌++◌, ◌+◌, ◌-◌, ◌≤◌, ◌<◌, ltb, eqb, length, drop, set, replicate, IfSome};
ghost use Rattle.cuts.specs.Below.{first};
ghost use Rattle.cuts.specs.Cut.{at, total};
ghost use Rattle.cuts.specs.Rank.{box, unrank};
ghost use Rattle.cut.specs.Value.{counts_of, FullCut};
ghost use Rattle.marks.specs.Flat.{row_met, cut_of_counts, witness_of, witness_in, avoided, walked};
ghost use Rattle.marks.specs.Rows.{top_at, strides_of, leads_back, StepsBack, RowsThere, others_of, asked, marks_to, Ready, RowAt, cut_mark, row_filled, read_off, place_of, BlankFrom, NoneTo};

use crate::{Task, Verdicts};
use cut::Cut;

// A task whose box can be settled, the size of the box, and what one event of each station adds to a rank.
#[derive(Clone, Copy, Debug, PartialEq, Eq)]
pub struct Frame<'a> {
    pub task: Task<'a>,
    size: usize,
    strides: [usize; 8],
    ghost ready: { Ready task },
    ghost sized: { size ≡ box (counts_of task.full) },
    ghost strided: { strides ≡ strides_of task.full },
}

// What the stations but the first ask of the cuts of a row and add to them: so many events of station 1, and so much to the sum.
#[derive(Clone, Copy, Debug, PartialEq, Eq)]
struct Others {
    low: usize,
    sum: usize,
}

impl<'a> Frame<'a> {
    // The frame of a task whose box has this size.
    pub fn new(task: Task<'a>, size: usize) -> Frame<'a>
        requires { Ready task × (size ≡ box (counts_of task.full)) }
        ensures { result.task ≡ task.entry }
    {
        let strides = strides_of(task.full);
        Frame {
            task,
            size,
            strides,
        }
    }

    // The marks of the box into the front of their room, the verdicts, and where Def is no the path into the front of its room.
    pub fn settle(&self, marks: &mut [u8], path: &mut [u8]) -> Verdicts
        requires { (self.now.size ≤ length marks.old) × (total (counts_of self.now.task.full) ≤ length path.old) }
        ensures { let table = marks_to self.now.task self.now.size in (marks.new ≡ table ++ drop self.now.size marks.old) × (result ≡ read_off self.now.task.full table) × (path.new ≡ walked self.now.task.full table path.old) }
    {
        let marks = &mut marks[..self.size];
        self.fill(marks);
        Verdicts {
            witness: self.witness(marks),
            def: self.walk(marks, path),
        }
    }

    // All rows of the box, blank before.
    fn fill(&self, marks: &mut [u8])
        requires { length marks.old ≡ self.now.size }
        ensures { marks.new ≡ marks_to self.now.task self.now.size }
    {
        marks.fill(0);
        let width = self.width();
        let mut counts = [0u16; 8];
        for j in 0..self.size / width {
            lay_top(self.task.full, j, &mut counts);
            self.fill_row(marks, &mut counts, j * width);
        }
    }

    // The row from rank first on, blank before, whose last cut has these counts; the first of them changes. The cuts with too few events of station 1 for the
    // others stay blank.
    fn fill_row(&self, marks: &mut [u8], counts: &mut [u16; 8], first: usize)
        requires { RowAt self.now.task.full counts.old first × (length marks.old ≡ self.now.size) × BlankFrom marks.old first (at self.now.task.full.counts 0 + 1) }
        ensures { (marks.new ≡ row_filled self.now.task counts.old first marks.old) × (counts.new ≡ set counts.old 0 (at counts.new 0)) }
    {
        let Some(others) = self.others(counts) else {
            return;
        };
        for x in others.low..self.width() {
            counts[0] = x as u16;
            marks[first + x] = self.mark(others.sum, marks, counts, x, first + x);
        }
    }

    // The mark of the cut with these counts, the first of which is x, and rank r, from those of the ranks below; the other stations are met, and add sum.
    // Marks are bytes of a lent room, which C reads too: numbers, and no enum. What it is handed travels together nowhere else. That r is
    // within the marks is a bound of that argument alone, here and in what it asks.
    fn mark(&self, sum: usize, marks: &[u8], counts: &[u16; 8], x: usize, r: usize) -> u8
        requires { (sum ≤ 524280) × (x ≤ at self.now.task.full.counts 0) × StepsBack self.now.task.full.n counts.now self.now.strides r × (r ≤ length marks.now) }
        ensures { result ≡ cut_mark self.now.task sum marks.now counts.now x r }
    {
        let at = self.task.bases[0] + x;
        if !self.row_met(8 * at, counts) {
            return 0;
        }
        let total = sum + usize::from(self.task.weights[at]);
        if (self.task.least..=self.task.most).contains(&total) {
            return 1;
        }
        // Only one cut has rank 0, so that `||` would spare next to nothing: tried, a box took up to 3 in 100 longer.
        2 + u8::from((r == 0) | self.first_back(marks, counts, r).is_some())
    }

    // What the stations but the first ask and add at the cut with these counts; nothing where a row of theirs is not met.
    fn others(&self, counts: &[u16; 8]) -> Option<Others>
        requires { RowsThere self.now.task.full.n self.now.task.bases self.now.task.needs.now self.now.task.weights.now counts.now }
        ensures { (result ≡ others_of self.now.task counts.now) × ((asked result).sum ≤ 524280) }
    {
        let mut low: usize = 0;
        let mut sum: usize = 0;
        for p in 1..self.stations() {
            let at = self.task.bases[p] + usize::from(counts[p]);
            if !self.row_met(8 * at, counts) {
                return None;
            }
            low = low.max(usize::from(self.task.needs[8 * at]));
            sum += usize::from(self.task.weights[at]);
        }
        Some(Others { low, sum })
    }

    // Whether the row of needs that starts at place from asks no more than the counts. All eight are looked at, so that the machine can do it at one time: a
    // search that ends at the first took up to 1.5 times as long for a whole box.
    fn row_met(&self, from: usize, counts: &[u16; 8]) -> bool
        requires { from + 8 ≤ length self.now.task.needs.now }
        ensures { result ≡ row_met self.now.task.full.n self.now.task.needs.now from counts.now }
    {
        let n = self.task.full.n;
        let mut met = true;
        for q in 0..8u8 {
            let place = usize::from(q);
            met &= (n <= q) | (self.task.needs[from + place] <= counts[place]);
        }
        met
    }

    // The place of the first station whose step back from the cut of rank r leads to a 3, if one does.
    fn first_back(&self, marks: &[u8], counts: &[u16; 8], r: usize) -> Option<usize>
        requires { StepsBack self.now.task.full.n counts.now self.now.strides r × (r ≤ length marks.now) }
        ensures { (result ≡ place_of self.now.task.full.n (first (leads_back marks.now counts.now self.now.strides r) self.now.task.full.n)) × IfSome result (λ p. (p < self.now.task.full.n) × (0 < at counts.now p) × (at self.now.strides p ≤ r)) }
    {
        (0..self.stations()).find(|&p| leads_back(marks, counts[p], self.strides[p], r))
    }

    // Whether the full cut is marked other than 3; where it is marked 3 the way back from it, as station numbers, into the front of the room.
    fn walk(&self, marks: &[u8], path: &mut [u8]) -> bool
        requires { (marks.now ≡ marks_to self.now.task self.now.size) × (total (counts_of self.now.task.full) ≤ length path.old) }
        ensures { (result ≡ not (avoided self.now.task.full marks.now)) × (path.new ≡ walked self.now.task.full marks.now path.old) }
    {
        let mut r = self.size - 1;
        if marks[r] != 3 {
            return true;
        }
        let mut counts = self.task.full.counts;
        let mut k = cut::events(self.task.full);
        // It counts nothing: each turn goes on from the cut that the last one led to, and the way ends where no step leads back.
        while let Some(p) = self.first_back(marks, &counts, r) {
            k -= 1;
            path[k] = (p + 1) as u8;
            counts[p] -= 1;
            r -= self.strides[p];
        }
        false
    }

    // The witness off the marks of the box: the cut of the lowest rank that is marked 1, if one is.
    fn witness(&self, marks: &[u8]) -> Option<Cut>
        requires { length marks.now ≡ self.now.size }
        ensures { result ≡ witness_in self.now.task.full.n (witness_of self.now.task.full marks.now) }
    {
        let r = first_one(marks)?;
        Some(self.cut_of(r))
    }

    // The cut of rank r.
    fn cut_of(&self, r: usize) -> Cut
        requires { r < self.now.size }
        ensures { result ≡ cut_of_counts self.now.task.full.n (unrank (counts_of self.now.task.full) r) }
    {
        let width = self.width();
        let mut counts = [0u16; 8];
        lay_top(self.task.full, r / width, &mut counts);
        counts[0] = (r % width) as u16;
        Cut {
            counts,
            n: self.task.full.n,
        }
    }

    // The stations of the recording.
    fn stations(&self) -> usize
        ensures { result ≡ self.now.task.full.n }
    {
        usize::from(self.task.full.n)
    }

    // The cuts of a row.
    fn width(&self) -> usize
        ensures { result ≡ at self.now.task.full.counts 0 + 1 }
    {
        usize::from(self.task.full.counts[0]) + 1
    }
}

// Whether a step back over s ranks is there, x being the count, and leads to a 3.
fn leads_back(marks: &[u8], x: u16, s: usize, r: usize) -> bool
    requires { (0 < x → (1 ≤ s) × (s ≤ r)) × (r ≤ length marks.now) }
    ensures { result ≡ (ltb 0 x && eqb (at marks.now (r - s)) 3) }
{
    0 < x && marks[r - s] == 3
}

// The counts of the last cut of row j, by division. No method of the frame: tried as one, it kept the frame in memory, and a box took 5 to 14 in 100 longer.
fn lay_top(full: Cut, j: usize, counts: &mut [u16; 8])
    requires { FullCut full × (drop full.n counts.old ≡ drop full.n (replicate 8 0)) }
    ensures { counts.new ≡ top_at full j }
{
    counts[0] = full.counts[0];
    let mut left = j;
    for p in 1..usize::from(full.n) {
        let k = usize::from(full.counts[p]) + 1;
        counts[p] = (left % k) as u16;
        left /= k;
    }
}

// What one event of each station adds to a rank. Two arrays go by one place: `iter_mut` and `zip` would have to cut the counts to n besides, and are no
// plainer.
fn strides_of(full: Cut) -> [usize; 8]
    requires { FullCut full × (box (counts_of full) ≤ 65536) }
    ensures { result ≡ strides_of full }
{
    let mut strides = [0usize; 8];
    let mut w: usize = 1;
    for p in 0..usize::from(full.n) {
        strides[p] = w;
        w *= usize::from(full.counts[p]) + 1;
    }
    strides
}

// The first rank that is marked 1, if one is.
fn first_one(marks: &[u8]) -> Option<usize>
    ensures { result ≡ place_of (length marks.now) (first (λ r. eqb (at marks.now r) 1) (length marks.now)) }
{
    let from = passed_over(marks);
    marks[from..].iter().position(|m| *m == 1).map(|r| from + r)
}

// So many ranks, in pieces of 256, none of which is marked 1. `contains` looks at many marks at a time, and `position` at one: tried over a whole box, that
// took 21 us, and the pieces take 2. A chain of `chunks_exact`, `take_while` and `count` says the same: tried, and its proof did not close.
fn passed_over(marks: &[u8]) -> usize
    ensures { (result ≤ length marks.now) × NoneTo marks.now result }
{
    let pieces = marks.len() / 256;
    for i in 0..pieces {
        let from = 256 * i;
        if marks[from..from + 256].contains(&1) {
            return from;
        }
    }
    256 * pieces
}
