// Fields of 1 to 16 bits are put into a slice of bytes, most significant bit first.
// A place is a bit's number in the slice, from 0; a slice may have more bits than a usize can count.
// `as` narrows only what is proved to fit; `try_from` would add an error that cannot occur.
#![tactic(auto)]

ghost use Rattle.std.specs.Prelude.{◌≡◌, ◌+◌, ◌*◌, ◌<◌, length};
ghost use Rattle.put.specs.Put.{with_bit, set_bit, can_hold, Put};

// The k bits from bit `at` on become those of v, and true; false, and nothing is changed, where s has no such field or it cannot hold v.
// A bool: there is one refusal, with nothing more to say of it, and the writer, which has tested its values before, has no use for either answer.
pub fn put(s: &mut [u8], at: usize, k: usize, v: u16) -> bool
    ensures { Put s.old at k v result s.new }
{
    let w = usize::from(v);
    if !can_hold(s.len(), at, k, w) {
        return false;
    }
    for i in 0..k {
        put_bit(s, at, i, (w >> (k - 1 - i)) % 2);
    }
    true
}

// Whether the k bits from bit `at` on, 1 to 16 of them, lie within n bytes and can hold w.
fn can_hold(n: usize, at: usize, k: usize, w: usize) -> bool
    ensures { result ≡ can_hold n at k w }
{
    if k < 1 || 16 < k {
        return false;
    }
    if n < at / 8 + (at % 8 + k).div_ceil(8) {
        return false;
    }
    w >> k < 1
}

// Bit at + i becomes b; the sum need not be a usize.
fn put_bit(s: &mut [u8], at: usize, i: usize, b: usize)
    requires { (i < 16) × (at + i < 8 * length s.old) × (b < 2) }
    ensures { s.new ≡ set_bit s.old (at + i) b }
{
    let p = at % 8 + i;
    let q = at / 8 + p / 8;
    s[q] = with_bit(s[q], 7 - p % 8, b);
}

// x with bit m, counted from the least significant, made b.
fn with_bit(x: u8, m: usize, b: usize) -> u8
    requires { (m < 8) × (b < 2) }
    ensures { result ≡ with_bit x m b }
{
    let w = usize::from(x);
    let p = 1 << m;
    let y = (w / (p * 2) * 2 + b) * p + w % p;
    y as u8
}
