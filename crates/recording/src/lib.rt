// The packed recording of document 01: checked, laid out flat.
// `as` narrows only what is proved to fit; `try_from` would add an error that cannot occur.
#![tactic(auto)]

ghost use Rattle.std.specs.Prelude.{◌≡◌};
ghost use Rattle.recording.specs.Form.{lead8, width8};
ghost use Rattle.recording.specs.Check.{checked_of};
ghost use Rattle.recording.specs.Decoded.{Decodes};
ghost use Rattle.recording.specs.Decode.{full_of, starts_of};
ghost use Rattle.recording.specs.declared.DecodeError.TheVariants.{Refused};

mod form;
mod packed;
mod records;
mod scan;

use cut::Cut;
pub use form::{Form, bytes_for};
use packed::Packed;
pub use packed::{CELLS, RECORDS};
pub use refusal::Refusal;
pub use scan::{Records, check_records};

// Why a recording is not decoded: the checks refuse it, or a room is too short for its table.
#[derive(Clone, Copy, Debug, PartialEq, Eq)]
pub enum DecodeError {
    Refused(Refusal),
    Short,
}

impl From<Refusal> for DecodeError {
    ghost from_gives = { λ x e. e ≡ Refused x };

    fn from(refusal: Refusal) -> DecodeError {
        DecodeError::Refused(refusal)
    }
}

// The checks of a recording, in the written order.
pub fn check(s: &[u8]) -> Result<(), Refusal>
    ensures { result ≡ checked_of lead8 width8 s.now }
{
    Packed::of(s).check_rows(&mut [0u16; CELLS])
}

// The checks and, where they accept, the tables of stamps and levels into the fronts of the rooms.
pub fn decode(s: &[u8], stamps: &mut [u16], levels: &mut [u16]) -> Result<(), DecodeError>
    ensures { Decodes lead8 width8 s.now stamps.old levels.old result stamps.new levels.new }
{
    let packed = Packed::of(s);
    let mut rows = [0u16; CELLS];
    packed.check_rows(&mut rows)?;
    let total = packed.total();
    let cells = 8 * usize::from(total);
    if stamps.len() < cells || levels.len() < usize::from(total) {
        return Err(DecodeError::Short);
    }
    stamps[..cells].copy_from_slice(&rows[..cells]);
    packed.lay_levels(total, levels);
    Ok(())
}

// The n and m that the bytes name, as the full cut.
pub fn full_cut(s: &[u8]) -> Cut
    ensures { result ≡ full_of lead8 width8 s.now }
{
    let packed = Packed::of(s);
    let n = packed.stations();
    Cut {
        counts: packed.counts(n),
        n,
    }
}

// The start levels as excess numbers.
pub fn starts(s: &[u8]) -> [u16; 8]
    ensures { result ≡ starts_of lead8 width8 s.now }
{
    let packed = Packed::of(s);
    let n = packed.stations();
    packed.starts(n)
}
