ghost use Rattle.sheet.specs.Tally.{released};
ghost use Rattle.sheet.specs.Weighing.{Changed};
ghost use Rattle.sheet.specs.Calls.{Reopened};

use crate::correction::Correction;
use crate::inspect::Inspect;
use crate::numbers::Numbers;
use crate::states::{Planning, Released};
use book::{Limits, Station};
use edits::{SheetFault, check_memory};
use kinds::{Judged, Kind};

impl Released {
    // Gives a planning sheet, which keeps the allowance used, or this one back.
    pub fn reopen<K: Kind>(
        self,
        stations: &[Station],
        nodes: &[K],
    ) -> Result<Planning, (Released, SheetFault)>
        ensures { Reopened K.Kind self stations.now nodes.now result }
    {
        match check_memory(self.numbers.n, stations.len(), nodes.len()) {
            Ok(()) => Ok(Planning {
                numbers: self.numbers,
            }),
            Err(fault) => Err((self, fault)),
        }
    }

    // Changes a station's mass by signed kilograms, within the allowance and the limits.
    pub fn change<J: Judged>(
        &mut self,
        stations: &mut [Station],
        nodes: &mut [J],
        limits: &Limits<'_>,
        asked: &Correction,
    ) -> Result<(), SheetFault>
        ensures { Changed J.Kind self.old.numbers stations.old nodes.old limits.now asked.now.station asked.now.kg result self.new.numbers stations.new nodes.new }
    {
        self.numbers.used = self.numbers.correct(stations, nodes, limits, asked)?;
        Ok(())
    }
}

impl Inspect for Released {
    ghost carried = { λ sheet. sheet.numbers };

    ghost state = { released };

    fn numbers(&self) -> Numbers {
        self.numbers
    }
}
