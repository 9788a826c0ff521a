// The summary of a deck by plain sums over its records, with no joining: what the joined one is held against.
use book::Station;
use kinds::{FloorRecord, House, MassMoment, Over, RunningLoad};

// The deck from the station `from` on, whose records these are.
pub(crate) fn by_hand(stations: &[Station], from: usize) -> House {
    let moments = sums(stations);
    House {
        moments,
        load: RunningLoad {
            total: moments.mass,
            fore: least_fore(stations),
            aft: least_aft(stations),
        },
        floors: FloorRecord {
            first: first_over(stations, from),
        },
    }
}

fn sums(stations: &[Station]) -> MassMoment {
    let none = MassMoment::default();
    stations.iter().fold(
        none,
        |sum, station| MassMoment {
            mass: sum.mass.saturating_add(i64::from(station.mass)),
            moment: sum.moment.saturating_add(station.moment()),
        },
    )
}

// Each fore limit less the masses from the deck's front up to its station.
fn least_fore(stations: &[Station]) -> Option<i64> {
    let passed = stations.iter().fold(NONE_PASSED, |passed, station| {
        passed.with(station.mass, station.fore)
    });
    passed.least
}

// Each aft limit less the masses from its station to the tail.
fn least_aft(stations: &[Station]) -> Option<i64> {
    let passed = stations.iter().rev().fold(NONE_PASSED, |passed, station| {
        passed.with(station.mass, station.aft)
    });
    passed.least
}

// What the stations that were passed weigh, and the least of their limits, each less the masses up to it.
#[derive(Clone, Copy)]
struct Passed {
    carried: i64,
    least: Option<i64>,
}

const NONE_PASSED: Passed = Passed {
    carried: 0,
    least: None,
};

impl Passed {
    // The same with one station more.
    fn with(self, mass: u32, limit: Option<u32>) -> Passed {
        let carried = self.carried.saturating_add(i64::from(mass));
        let margin = limit.map(|limit| i64::from(limit).saturating_sub(carried));
        // Both sides are taken apart: a least margin is an optional number, and none takes no part.
        let least = match (self.least, margin) {
            (Some(least), Some(margin)) => Some(least.min(margin)),
            (least, margin) => least.or(margin),
        };
        Passed { carried, least }
    }
}

fn first_over(stations: &[Station], from: usize) -> Option<Over> {
    let mut numbered = stations.iter().enumerate();
    let (at, station) = numbered.find(|(_, station)| station.mass > station.floor)?;
    Some(Over {
        station: from.saturating_add(at),
        excess: station.mass.saturating_sub(station.floor),
    })
}
