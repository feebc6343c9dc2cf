// The fields of the 38 bytes, and what is refused of them: a condition that breaks its rules.
// `as` narrows only what is proved to fit; `try_from` would add an error that cannot occur.
ghost use Rattle.std.specs.Prelude.{◌≡◌, ◌+◌, ◌<◌, not, if◌then◌else◌, ◌==◌, Ok, Err};
ghost use Rattle.bits.specs.Bits.{field};
ghost use Rattle.cuts.specs.Below.{every, tab};
ghost use Rattle.refusal.specs.declared.Reason.{Reason};
ghost use Rattle.condition.specs.Condition.{kind_at, uses_windows, head_ok, window_ok, pair_ok, raised_of, kind_of, window_of};

use crate::{Kind, Window};
use refusal::Reason;

// The kind with its own numbers, or Condition: kind 3, k above 8, k or ends that should be zero and are not, low above high.
// No TryFrom of the number alone: the kind takes k or the ends in too, and whether they are good goes by the number.
pub fn kind(s: &[u8]) -> Result<Kind, Reason>
    ensures { result ≡ (if head_ok s.now then Ok (kind_of s.now (kind_at s.now)) else Err Reason.Condition) }
{
    let number = bits::peek(s, 0, 2);
    let k = bits::peek(s, 2, 6);
    let (low, high) = ends(s, 8, number == 2)?;
    match number {
        0 if k == 0 => Ok(Kind::Together),
        1 if k <= 8 => Ok(Kind::AtLeast(k as u8)),
        2 if k == 0 => Ok(Kind::Sum(low, high)),
        _ => Err(Reason::Condition),
    }
}

// The eight windows of a condition of that kind, or Condition, where one is not in order.
pub fn windows(s: &[u8], kind: Kind) -> Result<[Window; 8], Reason>
    requires { uses_windows kind ≡ not (kind_at s.now == 2) }
    ensures { result ≡ (if every 8 (window_ok s.now) then Ok (tab 8 (window_of s.now)) else Err Reason.Condition) }
{
    let mut windows = [Window::default(); 8];
    for (p, place) in windows.iter_mut().enumerate() {
        *place = window(s, p, kind)?;
    }
    Ok(windows)
}

// The window of the station at place p, or Condition: used where the station is asked, if the kind uses windows.
fn window(s: &[u8], p: usize, kind: Kind) -> Result<Window, Reason>
    requires { (p < 8) × (uses_windows kind ≡ not (kind_at s.now == 2)) }
    ensures { result ≡ (if window_ok s.now p then Ok (window_of s.now p) else Err Reason.Condition) }
{
    let asked = bits::peek(s, 40 + p, 1) == 1;
    let (low, high) = ends(s, 48 + 32 * p, asked && kind.uses_windows())?;
    Ok(Window { asked, low, high })
}

// The pair of ends at bit `at`, as excess numbers, or Condition: upside down where they are used, else not zero, which is 32,768.
fn ends(s: &[u8], at: usize, used: bool) -> Result<(u16, u16), Reason>
    requires { at < 65536 }
    ensures { result ≡ (if pair_ok used (field s.now at 16) (field s.now (at + 16) 16)
        then Ok (raised_of (field s.now at 16), raised_of (field s.now (at + 16) 16))
        else Err Reason.Condition) }
{
    let low = end(s, at);
    let high = end(s, at + 16);
    match used {
        true if low <= high => Ok((low, high)),
        false if (low, high) == (32768, 32768) => Ok((low, high)),
        _ => Err(Reason::Condition),
    }
}

// The end at bit `at`, as an excess number: 16 bits in two's complement.
fn end(s: &[u8], at: usize) -> u16
    ensures { result ≡ raised_of (field s.now at 16) }
{
    bits::peek(s, at, 16).wrapping_add(32768)
}
