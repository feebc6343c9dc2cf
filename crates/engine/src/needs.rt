// The table of what each station's events need of the others, and the rows' numbers. A recording is handed in as its full cut, with its table of stamps.
ghost use Rattle.std.specs.Prelude.{◌≡◌, ◌++◌, ◌+◌, ◌*◌, ◌≤◌, ◌<◌, length, take, drop};
ghost use Rattle.cuts.specs.Below.{tab};
ghost use Rattle.engine.specs.Prepare.{Short, rows_to, station_need};

use crate::tables::{Station, lay_each};
use cut::Cut;

// The rows before those of each station.
pub fn bases(full: Cut) -> [usize; 8]
    requires { Short full }
    ensures { result ≡ tab 8 (rows_to full.counts) }
{
    let mut bases = [0; 8];
    let mut rows = 0;
    for p in 0..8 {
        bases[p] = rows;
        rows += usize::from(full.counts[p]) + 1;
    }
    bases
}

// The needs of a station's events, in its rows.
pub fn lay_station_needs(stamps: &[u16], station: Station, needs: &mut [u16])
    requires { length needs.old ≡ 32768 }
    ensures { needs.new ≡ take (8 * station.row) needs.old ++ tab (8 * (station.events + 1)) (station_need stamps.now station.place station.first) ++ drop (8 * station.row + 8 * (station.events + 1)) needs.old }
{
    let cells = 8 * (station.events + 1);
    lay_each(needs, 8 * station.row, cells, |j| {
        station_need(stamps, station.place, station.first, j)
    });
}

// Number j of the needs of the station at place p, whose records begin at `first`.
fn station_need(stamps: &[u16], p: usize, first: usize, j: usize) -> u16
    requires { (first ≤ 4096) × (j ≤ 4096) }
    ensures { result ≡ station_need stamps.now p first j }
{
    if j < 8 || j % 8 == p {
        return 0;
    }
    stamps.get(8 * first + (j - 8)).copied().unwrap_or(0)
}
