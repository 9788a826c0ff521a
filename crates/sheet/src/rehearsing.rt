ghost use Rattle.sheet.specs.Rehearsing.{Rehearsed};

use crate::numbers::Numbers;
use book::{Limits, Station};
use kinds::Judged;
use stages::{Ending, stages};

impl Numbers {
    // Stages on a sheet with these numbers: what is brought is looked at first, and a refusal of it counts to the first
    // stage.
    pub(crate) fn stages<J: Judged>(
        &self,
        stations: &mut [Station],
        nodes: &mut [J],
        limits: &Limits<'_>,
        bytes: &[u8],
    ) -> Ending
        ensures { Rehearsed J.Kind self.now stations.old nodes.old limits.now bytes.entry result stations.new nodes.new }
    {
        match self.check_brought(stations.len(), nodes.len(), limits) {
            Ok(()) => stages(&self.basic, stations, nodes, limits, bytes),
            Err(fault) => Ending::Refused { stage: 0, fault },
        }
    }
}
