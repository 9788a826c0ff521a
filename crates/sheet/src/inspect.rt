ghost use Rattle.std.specs.Prelude.{◌≡◌};
ghost use Rattle.sheet.specs.declared.numbers.Numbers.{Numbers};
ghost use Rattle.sheet.specs.Tally.{State};
ghost use Rattle.sheet.specs.Weighing.{Assessed};
ghost use Rattle.sheet.specs.Calls.{Summed, Searched};

use crate::asking::{first_of, range_of};
use crate::numbers::Numbers;
use crate::weighing::judge_of;
use book::{Limits, Station};
use edits::SheetFault;
use kinds::{Judged, Kind, Test};

// A sheet in one of its states, and the calls that both states admit: they only look.
pub trait Inspect {
    // What it carries from call to call.
    ghost carried: { Self → Numbers };

    // Which state that is.
    ghost state: { State };

    // What the sheet carries from call to call.
    fn numbers(&self) -> Numbers
        ensures { result ≡ carried self.now };

    // The stations of a range joined nose to tail. Its work and that of the next two stands in functions of their own: here
    // the promise stands once for both states, so that the wrong work is refused.
    final fn range<K: Kind>(
        &self,
        stations: &[Station],
        nodes: &[K],
        from: usize,
        to: usize,
    ) -> Result<K, SheetFault>
        ensures { Summed K.Kind (carried self.now) state stations.now nodes.now from to result }
    {
        range_of(self, stations, nodes, from, to)
    }

    // The first station at which a test is met.
    final fn first<T: Test>(
        &self,
        stations: &[Station],
        nodes: &[T::Of],
        test: &T,
    ) -> Result<Option<usize>, SheetFault>
        ensures { Searched T.Of.Kind T.Test.meets (carried self.now) state stations.now nodes.now test.now result }
    {
        first_of(self, stations, nodes, test)
    }

    // Judges the deck at the masses aboard.
    final fn judge<J: Judged>(
        &self,
        stations: &[Station],
        nodes: &[J],
        limits: &Limits<'_>,
    ) -> Result<(u8, usize), SheetFault>
        ensures { Assessed J.Kind (carried self.now) state stations.now nodes.now limits.now result }
    {
        judge_of(self, stations, nodes, limits)
    }
}
