// A cut as a value, its steps, its rank, and the box of a recording. The mathematics stands in specs/ and proofs/.
// A recording is handed in as its full cut.
#![tactic(auto)]

ghost use Rattle.std.specs.Prelude.{◌≡◌, ◌&&◌, ◌-◌, ◌<◌, MatchOption, true, false};
ghost use Rattle.cut.specs.Value.{is_cut, is_station, forward_of, back_of, box_of, rank_of, events_of};
ghost use Rattle.cut.specs.Walk.{Walks};

// One event number for each station; counts beyond n are 0. An array of eight, of which n are used, stays: the law's own form, fixed memory, no heap.
#[derive(Clone, Copy, Debug, PartialEq, Eq)]
pub struct Cut {
    pub counts: [u16; 8],
    pub n: u8,
}

// What one walk over the places of a recording and a cut of it comes to: the box under its ceiling, the rank, T.
#[derive(Clone, Copy, Debug, PartialEq, Eq)]
struct Walked {
    size: usize,
    rank: usize,
    events: usize,
}

impl Cut {
    // The cut one event of the station further on, or nothing: no cut of the recording, no station of it, or no such event.
    #[tactic(auto, using(crate::proofs::WalkLaws::forward_steps))]
    pub fn forward(self, full: Cut, station: u8) -> Option<Cut>
        ensures { result ≡ forward_of full self station }
    {
        let p = self.place(full, station)?;
        if full.counts[p] <= self.counts[p] {
            return None;
        }
        let mut next = self;
        next.counts[p] += 1;
        Some(next)
    }

    // The cut one event of the station further back, or nothing as in `forward`.
    #[tactic(auto, using(crate::proofs::WalkLaws::back_steps))]
    pub fn back(self, full: Cut, station: u8) -> Option<Cut>
        ensures { result ≡ back_of full self station }
    {
        let p = self.place(full, station)?;
        let mut next = self;
        next.counts[p] = self.counts[p].checked_sub(1)?;
        Some(next)
    }

    // The place of the station, nothing where this is no cut of the recording or that no station of it.
    #[tactic(auto, using(crate::proofs::WalkLaws::no_station, crate::proofs::WalkLaws::placed))]
    fn place(self, full: Cut, station: u8) -> Option<usize>
        ensures { MatchOption result ((is_cut full self && is_station full station) ≡ false) (λ p. ((is_cut full self && is_station full station) ≡ true) × (p ≡ station - 1) × (p < 8)) }
    {
        walk(full, self)?;
        if full.n < station {
            return None;
        }
        usize::from(station).checked_sub(1)
    }
}

// The box of the recording, 65,537 once it is above 65,536; 0, the number of its cuts, where there is no such recording. Both are numbers, no flags, as
// `box_of` has them: the law's test for BoxSize compares the box with 65,536.
pub fn box_of(full: Cut) -> usize
    ensures { result ≡ box_of full }
{
    walk(full, full).map_or(0, |w| w.size)
}

// The rank of c, nothing where it is no cut of the recording or the box is above 65,536.
#[tactic(auto, using(crate::proofs::WalkLaws::rank_none))]
pub fn rank(c: Cut, full: Cut) -> Option<usize>
    ensures { result ≡ rank_of full c }
{
    let w = walk(full, c)?;
    if 65536 < w.size {
        return None;
    }
    Some(w.rank)
}

// T, the events of the recording: the sum of the counts of the stations 1 to n; 0, as many as there are, where there is no such recording.
pub fn events(full: Cut) -> usize
    ensures { result ≡ events_of full }
{
    walk(full, full).map_or(0, |w| w.events)
}

// One walk over the eight places; nothing where c is no cut of the recording.
fn walk(full: Cut, c: Cut) -> Option<Walked>
    ensures { Walks full c result }
{
    let n = usize::from(full.n);
    if n < 1 || 8 < n || c.n != full.n {
        return None;
    }
    let mut size = 1;
    let mut rank = 0;
    let mut events = 0;
    for p in 0..8 {
        let m = usize::from(full.counts[p]);
        let x = usize::from(c.counts[p]);
        if m < x || (n <= p && 0 < m) {
            return None;
        }
        events += m;
        rank += x * size;
        size = (size * (m + 1)).min(65537);
    }
    Some(Walked { size, rank, events })
}
