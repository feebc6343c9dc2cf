// Levels as 12 bits, as excess numbers and as signed numbers.
// `as` narrows only what is proved to fit; `try_from` would add an error that cannot occur.
#![tactic(auto)]

ghost use Rattle.std.specs.Prelude.{◌≡◌, ◌%◌};
ghost use Rattle.levels.specs.Level.{twos, field_of, excess_of};

// A level is a whole number from LOWEST to HIGHEST.
const LOWEST: i16 = -2048;

const HIGHEST: i16 = 2047;

// The excess number of 12 bits; bits above them are not looked at.
#[tactic(auto, unfolding(crate::specs::Level::excess_of))]
pub fn excess(f: u16) -> u16
    ensures { result ≡ excess_of f }
{
    (f % 4096 + 2048) % 4096
}

// The level of 12 bits.
pub fn signed(f: u16) -> i16
    ensures { result ≡ twos 12 (f % 4096) }
{
    excess(f) as i16 - 2048
}

// A level's 12 bits in two's complement, nothing where the number is no level.
pub fn field_of(v: i16) -> Option<u16>
    ensures { result ≡ field_of v }
{
    if v < LOWEST || HIGHEST < v {
        return None;
    }
    Some(v.rem_euclid(4096) as u16)
}
