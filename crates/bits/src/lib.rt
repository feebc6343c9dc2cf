// Fields of 1 to 16 bits in a slice of bytes, most significant bit first: a reader looks at them and takes them.
// A place is a bit's number in the slice, from 0; a slice may have more bits than a usize can count.
// `as` narrows only what is proved to fit; `try_from` would add an error that cannot occur.
#![tactic(auto)]

ghost use Rattle.std.specs.Prelude.{◌≡◌, ◌<◌, get_or};
ghost use Rattle.bits.specs.Bits.{peeked, Takes, left_of};

// The bit reader: the lent bytes, and how many of their bits are already taken.
#[derive(Clone, Copy, Debug, PartialEq, Eq)]
pub struct BitReader<'a> {
    pub bytes: &'a [u8],
    pub taken: usize,
}

impl<'a> BitReader<'a> {
    // A reader of the bytes whose first `taken` bits are already taken.
    pub fn new(bytes: &'a [u8], taken: usize) -> BitReader<'a>
        ensures { (result.bytes ≡ bytes.entry) × (result.taken ≡ taken) }
    {
        BitReader { bytes, taken }
    }

    // The next k bits, which stay where they are: bits past the end are 0, and all is 0 where k is above 16: a number, not None, as `peeked` has it.
    // Three bytes hold them.
    pub fn look(self, k: usize) -> u16
        ensures { result ≡ peeked self.entry.bytes.now self.entry.taken k }
    {
        if 16 < k {
            return 0;
        }
        let q = self.taken / 8;
        let a = byte(self.bytes, q);
        let b = byte(self.bytes, q + 1);
        let c = byte(self.bytes, q + 2);
        let w = a * 65536 + b * 256 + c;
        let v = (w >> (24 - self.taken % 8 - k)) % (1 << k);
        v as u16
    }

    // The next k bits, 1 to 16 of them, and the reader moves past them; past the end or at another width nothing, and the reader stays.
    pub fn take(&mut self, k: usize) -> Option<u16>
        ensures { Takes self.old k result self.new }
    {
        let left = self.left();
        if k < 1 || 16 < k || left < k {
            return None;
        }
        let field = self.look(k);
        self.taken += k;
        Some(field)
    }

    // How many bits are left; of more than a usize can count, those up to the largest place.
    #[tactic(auto, unfolding(crate::specs::Bits::left_of))]
    pub fn left(self) -> usize
        ensures { result ≡ left_of self.entry.bytes.now self.entry.taken }
    {
        let bits = self.bytes.len().saturating_mul(8);
        bits.saturating_sub(self.taken)
    }
}

// The k bits from bit `at` on, bits past the end being 0; 0 where k is above 16. A reader there looks at them.
pub fn peek(s: &[u8], at: usize, k: usize) -> u16
    ensures { result ≡ peeked s.now at k }
{
    BitReader::new(s, at).look(k)
}

// The byte at i, or 0 past the end.
fn byte(s: &[u8], i: usize) -> usize
    ensures { (result ≡ get_or s.now i 0) × (result < 256) }
{
    s.get(i).map_or(0, |b| usize::from(*b))
}
