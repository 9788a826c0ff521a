ghost use Rattle.book.specs.Envelopes.{polygon};
ghost use Rattle.judging.specs.declared.occasion.Occasion.TheVariants.{Stage};
ghost use Rattle.judging.specs.Judges.{Judges};
ghost use Rattle.stages.specs.Steps.{JudgedAfter, Stepped, Turned};

use crate::ending::Ending;
use crate::plan::plan;
use crate::run::Run;
use crate::step::step_of;
use book::Station;
use edits::{Edit, SheetFault, carry_out};
use judging::{Occasion, judge};
use kinds::Judged;

impl Run<'_> {
    // Judges a deck between stages. A verdict stays a pair of plain numbers, code and place, as a judgement answers it.
    fn judge<J: Judged>(&self, stations: &[Station], nodes: &[J]) -> (u8, usize)
        ensures { Judges J.Kind self.now.basic.now stations.now nodes.now self.now.limits.now.zones.now self.now.limits.now.frames.now (polygon self.now.limits.now.envelope.now) Stage result }
    {
        judge(self.basic, stations, nodes, self.limits, Occasion::Stage)
    }

    // Carries out an edit, and judges the deck after it.
    fn judged_after<J: Judged>(
        &self,
        stations: &mut [Station],
        nodes: &mut [J],
        edit: &Edit,
    ) -> Result<(u8, usize), SheetFault>
        ensures { JudgedAfter J.Kind self.now.basic.now self.now.limits.now.zones.now self.now.limits.now.frames.now (polygon self.now.limits.now.envelope.now) stations.old nodes.old edit.now result stations.new nodes.new }
    {
        carry_out(stations.len(), stations, nodes, edit)?;
        Ok(self.judge(stations, nodes))
    }

    // One stage, of the record at `at`: where the next record begins, or how the stages end.
    fn one_stage<J: Judged>(
        &self,
        stations: &mut [Station],
        nodes: &mut [J],
        stage: usize,
        at: usize,
    ) -> Result<usize, Ending>
        ensures { Stepped J.Kind self.now.basic.now self.now.limits.now.zones.now self.now.limits.now.frames.now (polygon self.now.limits.now.envelope.now) self.now.bytes.now stage at stations.old nodes.old result stations.new nodes.new }
    {
        // A match: by `map_err` and `?` the check of this function ran out of steps.
        match plan(stage, self.bytes, at) {
            Ok((edit, next)) => step_of(stage, next, self.judged_after(stations, nodes, &edit)),
            Err(fault) => Err(Ending::Refused { stage, fault }),
        }
    }

    // The next stage, or the end with every limit kept where no record is left. No struct holds `stage` and `at`: the one
    // counts with the loop, and the other comes out of the record before.
    pub(crate) fn next_stage<J: Judged>(
        &self,
        stations: &mut [Station],
        nodes: &mut [J],
        stage: usize,
        at: usize,
    ) -> Result<usize, Ending>
        ensures { Turned J.Kind self.now.basic.now self.now.limits.now.zones.now self.now.limits.now.frames.now (polygon self.now.limits.now.envelope.now) self.now.bytes.now stage at stations.old nodes.old result stations.new nodes.new }
    {
        if at < self.bytes.len() {
            self.one_stage(stations, nodes, stage, at)
        } else {
            Err(Ending::AllKept)
        }
    }
}
