// What is handed in, put into a room field by field.
ghost use Rattle.std.specs.Prelude.{◌≡◌, ◌≤◌, ◌<◌, length};
ghost use Rattle.writer.specs.Write.{handed, first_given, needed_given};
ghost use Rattle.writer.specs.Tables.{level_put};
ghost use Rattle.writer.specs.Pack.{over, end_given, turns, put_pair, ended, station_turn, record_turn, pack_into};

use crate::{Given, item};
use recording::{Form, bytes_for};

// What is handed in, to be packed in a form: it has as many records as its stations have, a 16-bit number of them.
#[derive(Clone, Copy, Debug, PartialEq, Eq)]
pub struct Packing<'a> {
    pub form: Form,
    pub given: Given<'a>,
    pub ghost records: { length given.origins.now ≡ first_given (handed given) given.n },
    pub ghost few: { length given.origins.now < 65536 },
}

impl<'a> Packing<'a> {
    // How many records there are.
    fn total(&self) -> u16
        ensures { result ≡ first_given (handed self.now.given) self.now.given.n }
    {
        self.given.origins.len() as u16
    }

    // The bit where the recording ends.
    fn end(&self) -> usize
        ensures { (result ≡ over self.now.form self.now.given end_given) × (result ≤ 200000000) }
    {
        self.form.record_bit(self.given.n, self.total())
    }

    // The bytes that the recording needs.
    pub fn needed(&self) -> usize
        ensures { result ≡ over self.now.form self.now.given needed_given }
    {
        bytes_for(self.end())
    }

    // The recording into the front of the room.
    pub fn put(&self, room: &mut [u8])
        ensures { room.new ≡ over self.now.form self.now.given pack_into room.old }
    {
        self.put_ends(room);
        self.put_stations(room);
        self.put_records(room);
    }

    // n in front, and zero bits from the end of the records on, up to a whole byte.
    fn put_ends(&self, room: &mut [u8])
        ensures { room.new ≡ over self.now.form self.now.given ended room.old }
    {
        put::put(room, self.form.lead - 4, 4, u16::from(self.given.n));
        let end = self.end();
        put::put(room, end, 8 * bytes_for(end) - end, 0);
    }

    // The parts of the n stations.
    fn put_stations(&self, room: &mut [u8])
        ensures { room.new ≡ turns (over self.now.form self.now.given station_turn) room.old self.now.given.n }
    {
        for p in 0..self.given.n {
            let place = usize::from(p);
            let count = u16::from(item(self.given.counts, place, 0));
            let start = item(self.given.starts, place, 0);
            self.put_pair(room, self.form.station_bit(p), count, start);
        }
    }

    // The records, in file order.
    fn put_records(&self, room: &mut [u8])
        ensures { room.new ≡ turns (over self.now.form self.now.given record_turn) room.old (first_given (handed self.now.given) self.now.given.n) }
    {
        for r in 0..self.total() {
            self.put_record(room, r);
        }
    }

    // Record r: origin, sender's number and level, and n counts.
    fn put_record(&self, room: &mut [u8], r: u16)
        ensures { room.new ≡ over self.now.form self.now.given record_turn r room.old }
    {
        let given = &self.given;
        let bit = self.form.record_bit(given.n, r);
        let place = usize::from(r);
        let n = usize::from(given.n);
        put::put(room, bit, 4, u16::from(item(given.origins, place, 0)));
        let number = item(given.numbers, place, 0);
        let level = item(given.levels, place, 0);
        self.put_pair(room, bit + 4, number, level);
        for q in 0..given.n {
            let count = item(given.stamps, place * n + usize::from(q), 0);
            put::put(
                room,
                self.form.stamp_bit(given.n, r, q),
                self.form.width,
                count,
            );
        }
    }

    // A number and a level's bits, from the given bit on: all of a station's part, the middle of a record. A number that is no level was refused.
    // What it is handed travels together nowhere else.
    #[tactic(auto, unfolding(crate::specs::Pack::put_pair, crate::specs::Tables::level_put))]
    fn put_pair(&self, room: &mut [u8], bit: usize, number: u16, level: i16)
        requires { bit ≤ 200000004 }
        ensures { room.new ≡ put_pair self.now.form.width bit number (level_put level) room.old }
    {
        put::put(room, bit, self.form.width, number);
        let level = levels::field_of(level).unwrap_or(0);
        put::put(room, bit + self.form.width, 12, level);
    }
}
