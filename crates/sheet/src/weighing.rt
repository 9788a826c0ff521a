ghost use Rattle.std.specs.Prelude.{◌≡◌, if◌then◌else◌, Some, None, nat_eq};
ghost use Rattle.book.specs.Refusals.{answer};
ghost use Rattle.sheet.specs.Weighing.{brought_refusal, Valued, Assessed, Weighed};

use crate::inspect::Inspect;
use crate::numbers::Numbers;
use book::{Limits, Station};
use edits::{SheetFault, check_memory};
use judging::{Occasion, judge};
use kinds::Judged;

// A broken limit, by a verdict's code, is refused with this fault.
pub(crate) fn kept_or(code: u8, fault: SheetFault) -> Result<(), SheetFault>
    ensures { result ≡ answer (if nat_eq code 0 then None else Some fault) tt }
{
    if code == 0 { Ok(()) } else { Err(fault) }
}

impl Numbers {
    // What is looked at before any judging: the memory, the zones, the frames.
    pub(crate) fn check_brought(
        &self,
        stations: usize,
        nodes: usize,
        limits: &Limits<'_>,
    ) -> Result<(), SheetFault>
        ensures { result ≡ answer (brought_refusal self.now stations nodes limits.now) tt }
    {
        check_memory(self.n, stations, nodes)?;
        limits.check(self.n)?;
        Ok(())
    }

    // The verdict on a deck as it stands, by limits that are brought.
    fn assess<J: Judged>(
        &self,
        stations: &[Station],
        nodes: &[J],
        limits: &Limits<'_>,
    ) -> Result<(u8, usize), SheetFault>
        ensures { Valued J.Kind self.now stations.now nodes.now limits.now result }
    {
        self.check_brought(stations.len(), nodes.len(), limits)?;
        Ok(judge(&self.basic, stations, nodes, limits, Occasion::Standing))
    }

    // Whether a sheet with these numbers may be released.
    pub(crate) fn weigh<J: Judged>(
        &self,
        stations: &[Station],
        nodes: &[J],
        limits: &Limits<'_>,
    ) -> Result<(), SheetFault>
        ensures { Weighed J.Kind self.now stations.now nodes.now limits.now result }
    {
        let (code, _) = self.assess(stations, nodes, limits)?;
        kept_or(code, SheetFault::NotKept { code })
    }
}

// The verdict asked of a sheet in whichever state it is.
pub(crate) fn judge_of<S: Inspect, J: Judged>(
    sheet: &S,
    stations: &[Station],
    nodes: &[J],
    limits: &Limits<'_>,
) -> Result<(u8, usize), SheetFault>
    ensures { Assessed J.Kind (S.carried sheet.now) S.state stations.now nodes.now limits.now result }
{
    sheet.numbers().assess(stations, nodes, limits)
}
