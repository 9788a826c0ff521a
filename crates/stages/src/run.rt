ghost use Rattle.book.specs.Envelopes.{polygon};
ghost use Rattle.stages.specs.Steps.{Ran};

use crate::ending::Ending;
use book::{Basic, Limits, Station};
use kinds::Judged;

// What a run of stages only reads: the basic record, the limits, and the records of its stages.
#[derive(Clone, Copy)]
pub(crate) struct Run<'a> {
    pub(crate) basic: &'a Basic,
    pub(crate) limits: &'a Limits<'a>,
    pub(crate) bytes: &'a [u8],
}

impl Run<'_> {
    // The stages one by one, up to the first that breaks a limit or is refused. The masses stay as they are then.
    pub(crate) fn carry_out_all<J: Judged>(
        &self,
        stations: &mut [Station],
        nodes: &mut [J],
    ) -> Ending
        ensures { Ran J.Kind self.now.basic.now self.now.limits.now.zones.now self.now.limits.now.frames.now (polygon self.now.limits.now.envelope.now) self.now.bytes.now stations.old nodes.old result stations.new nodes.new }
    {
        let mut at = 0;
        for stage in 0..=256 {
            match self.next_stage(stations, nodes, stage, at) {
                Ok(next) => at = next,
                Err(ending) => return ending,
            }
        }
        // The 257th stage is refused.
        unreachable!()
    }
}
