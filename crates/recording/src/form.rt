// Where the fields of a packed recording stand.
ghost use Rattle.std.specs.Prelude.{◌≡◌, ◌+◌, ◌*◌, ◌≤◌};
ghost use Rattle.recording.specs.Form.{bytes_for, station_bit, record_bit, lead8, width8};

// The bits that lead up to the stations' parts, the last four of them n, and the bits of a count.
#[derive(Clone, Copy, Debug, PartialEq, Eq)]
pub struct Form {
    pub lead: usize,
    pub width: usize,
    pub ghost bounds: { (4 ≤ lead) × (lead ≤ 8) × (1 ≤ width) × (width ≤ 9) },
}

impl Form {
    // The form of document 01.
    pub fn of_today() -> Form
        ensures { (result.lead ≡ lead8) × (result.width ≡ width8) }
    {
        Form { lead: 4, width: 8 }
    }

    // The bit where the part of the station at place p begins.
    pub fn station_bit(self, p: u8) -> usize
        ensures { (result ≡ station_bit self.lead self.width p) × (result ≤ 5363) }
    {
        self.lead + (self.width + 12) * usize::from(p)
    }

    // The bit where its start level begins, behind its count of events.
    pub fn start_bit(self, p: u8) -> usize
        ensures { (result ≡ station_bit self.lead self.width p + self.width) × (result ≤ 5372) }
    {
        self.station_bit(p) + self.width
    }

    // The bit where record r of n stations' begins; with T for r, where the recording ends.
    pub fn record_bit(self, n: u8, r: u16) -> usize
        ensures { (result ≡ record_bit self.lead self.width n r) × (result ≤ 200000000) }
    {
        let size = 16 + self.width + self.width * usize::from(n);
        self.station_bit(n) + size * usize::from(r)
    }

    // The bit where that record's level begins, behind its origin and its sender's number.
    pub fn level_bit(self, n: u8, r: u16) -> usize
        ensures { (result ≡ record_bit self.lead self.width n r + 4 + self.width) × (result ≤ 200000013) }
    {
        self.record_bit(n, r) + 4 + self.width
    }

    // The bit where count q of its stamp begins, behind its level and the counts before.
    pub fn stamp_bit(self, n: u8, r: u16, q: u8) -> usize
        ensures { (result ≡ record_bit self.lead self.width n r + 16 + self.width + self.width * q) × (result ≤ 200002320) }
    {
        self.record_bit(n, r) + 16 + self.width + self.width * usize::from(q)
    }
}

// Whole bytes for a number of bits.
pub fn bytes_for(bits: usize) -> usize
    ensures { (result ≡ bytes_for bits) × (bits ≤ 8 * result) × (8 * result ≤ bits + 7) }
{
    bits.div_ceil(8)
}
