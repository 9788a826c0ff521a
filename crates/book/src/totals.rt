ghost use Rattle.std.specs.Prelude.{◌≡◌, None};
ghost use Rattle.book.specs.Refusals.{answer, book_refusal};
ghost use Rattle.book.specs.Sums.{totals_of};

use crate::basic::Basic;
use crate::fault::BookFault;
use crate::station::{Station, check_count, check_stations};

// Mass and moment of the basic record and all stations together: a sum over records. Not a `Vertex`, which is
// any point of the plane, so that neither is passed for the other.
#[derive(Clone, Copy, Debug, PartialEq, Eq)]
pub struct Totals {
    pub mass: i64,
    pub moment: i64,
}

// How many stations, then each station, then the basic record.
fn check_records(basic: &Basic, stations: &[Station]) -> Result<(), BookFault>
    ensures { result ≡ answer (book_refusal basic.now stations.now) tt }
{
    check_count(stations)?;
    check_stations(stations)?;
    basic.check()
}

// The sums over records that are in their limits, so that nothing overflows. One `for` for both: the
// closure of a `fold` would owe at each station that neither sum overflows, which only the loop's invariant knows.
fn summed(basic: &Basic, stations: &[Station]) -> Totals
    requires { book_refusal basic.now stations.now ≡ None }
    ensures { result ≡ totals_of basic.now stations.now }
{
    let mut mass = i64::from(basic.mass);
    let mut moment = basic.moment;
    for station in stations {
        mass += i64::from(station.mass);
        moment += station.moment();
    }
    Totals { mass, moment }
}

impl Totals {
    // The sums over a book whose records are in their limits, or the first refusal.
    pub fn of(basic: &Basic, stations: &[Station]) -> Result<Totals, BookFault>
        ensures { result ≡ answer (book_refusal basic.now stations.now) (totals_of basic.now stations.now) }
    {
        check_records(basic, stations)?;
        Ok(summed(basic, stations))
    }
}
