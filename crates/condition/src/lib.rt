// The condition of document 01: read from its 38 bytes, and asked of levels.
#![tactic(auto)]

ghost use Rattle.std.specs.Prelude.{◌≡◌, ◌+◌, ◌≤◌, ◌&&◌, nat_le};
ghost use Rattle.cuts.specs.Cut.{at};
ghost use Rattle.levels.specs.Level.{level_of};
ghost use Rattle.condition.specs.Condition.{uses_windows, read_of, holds_of};
ghost use Rattle.condition.specs.Weigh.{weigh_of, asked_of, limits_of};

use refusal::Reason;

mod fields;

// The three kinds, each with its own numbers. Sum's ends are excess numbers, 32,768 above what they stand for.
#[derive(Clone, Copy, Debug, PartialEq, Eq)]
pub enum Kind {
    Together,
    AtLeast(u8),
    Sum(u16, u16),
}

// A station's window, whether the station is asked. The ends are excess numbers too. No Option of the ends: Sum asks stations without a window.
#[derive(Clone, Copy, Debug, Default, PartialEq, Eq)]
pub struct Window {
    pub asked: bool,
    pub low: u16,
    pub high: u16,
}

// A condition: its kind, and beside it the eight windows.
#[derive(Clone, Copy, Debug, PartialEq, Eq)]
pub struct Condition {
    pub kind: Kind,
    pub windows: [Window; 8],
}

// The limits of the sum that decides whether a condition holds, 32,768 above the sum itself.
#[derive(Clone, Copy, Debug, PartialEq, Eq)]
pub struct Limits {
    pub least: usize,
    pub most: usize,
}

// The condition in the first 38 bytes, or why it is refused: TooShort if there are fewer, Condition if it breaks the rules.
pub fn read(s: &[u8]) -> Result<Condition, Reason>
    ensures { result ≡ read_of s.now }
{
    if s.len() < 38 {
        return Err(Reason::TooShort);
    }
    let kind = fields::kind(s)?;
    let windows = fields::windows(s, kind)?;
    Ok(Condition { kind, windows })
}

// What the station at place p adds to the sum that decides, at this excess level. 0 beyond the eighth, not None: `weigh_of` promises it.
pub fn weigh(c: Condition, p: usize, level: u16) -> u16
    ensures { result ≡ weigh_of c p level }
{
    let Some(window) = c.windows.get(p) else {
        return 0;
    };
    match c.kind {
        Kind::Sum(_, _) if window.asked => level,
        Kind::Sum(_, _) => 0,
        _ => u16::from(window.is_met(level)),
    }
}

// The limits of the sum that decides. A count is at most 8, so 32,776; excess levels make a sum 2,048 too large for each asked station.
pub fn limits_of(c: Condition) -> Limits
    ensures { result ≡ limits_of c }
{
    match c.kind {
        Kind::Together => Limits {
            least: 32768 + c.count_asked(),
            most: 32776,
        },
        Kind::AtLeast(k) => Limits {
            least: 32768 + usize::from(k),
            most: 32776,
        },
        Kind::Sum(low, high) => {
            let more = 2048 * c.count_asked();
            Limits {
                least: usize::from(low) + more,
                most: usize::from(high) + more,
            }
        }
    }
}

// Whether the condition holds of eight levels, as excess numbers: whether what they add lies between the limits.
pub fn holds(c: Condition, levels: [u16; 8]) -> bool
    ensures { result ≡ holds_of c (λ p. level_of (at levels p)) }
{
    let mut sum: usize = 32768;
    for (p, level) in levels.iter().enumerate() {
        sum += usize::from(weigh(c, p, *level));
    }
    let limits = limits_of(c);
    (limits.least..=limits.most).contains(&sum)
}

impl Kind {
    // Whether asked stations have windows: Sum uses none.
    #[tactic(auto, unfolding(crate::specs::Condition::uses_windows))]
    fn uses_windows(self) -> bool
        ensures { result ≡ uses_windows self }
    {
        !matches!(self, Kind::Sum(..))
    }
}

impl Window {
    // Whether the station is asked and its level, an excess number, lies in its window; 30,720 is 32,768 - 2,048.
    fn is_met(self, level: u16) -> bool
        ensures { result ≡ (self.asked && (nat_le self.low (level + 30720) && nat_le (level + 30720) self.high)) }
    {
        let end = usize::from(level) + 30720;
        self.asked && (usize::from(self.low)..=usize::from(self.high)).contains(&end)
    }
}

impl Condition {
    // How many stations are asked.
    fn count_asked(self) -> usize
        ensures { (result ≡ asked_of self) × (result ≤ 8) }
    {
        self.windows.iter().filter(|window| window.asked).count()
    }
}
