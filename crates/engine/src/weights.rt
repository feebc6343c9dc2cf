// The table of what each station adds, after each of its events, to the sum that decides the condition.
ghost use Rattle.std.specs.Prelude.{◌≡◌, ◌++◌, ◌+◌, ◌≤◌, ◌<◌, length, take, drop};
ghost use Rattle.cuts.specs.Below.{tab};
ghost use Rattle.engine.specs.Prepare.{station_weight};

use crate::tables::{Station, lay_each};
use condition::Condition;

// What a station, with its start level, adds after each of its events, in its rows. What it is handed travels together nowhere else.
pub fn lay_station_weights(
    c: Condition,
    start: u16,
    levels: &[u16],
    station: Station,
    weights: &mut [u16],
)
    requires { length weights.old ≡ 4096 }
    ensures { weights.new ≡ take station.row weights.old ++ tab (station.events + 1) (station_weight c start levels.now station.place station.first) ++ drop (station.row + (station.events + 1)) weights.old }
{
    lay_each(weights, station.row, station.events + 1, |e| {
        station_weight(c, start, levels, station, e)
    });
}

// What it adds after its event e. What it is handed travels together nowhere else.
fn station_weight(c: Condition, start: u16, levels: &[u16], station: Station, e: usize) -> u16
    requires { e ≤ 511 }
    ensures { result ≡ station_weight c start levels.now station.place station.first e }
{
    let level = match e {
        0 => start,
        _ => levels.get(station.first + (e - 1)).copied().unwrap_or(0),
    };
    condition::weigh(c, station.place, level)
}
