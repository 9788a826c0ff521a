ghost use Rattle.std.specs.Prelude.{◌≡◌, ◌+◌, if◌then◌else◌, Ok, Err, nat_le};
ghost use Rattle.edits.specs.Carrying.{Put};
ghost use Rattle.edits.specs.declared.fault.SheetFault.TheVariants.{OverAllowance as Over};
ghost use Rattle.sheet.specs.Weighing.{Settled, Corrected};

use crate::correction::Correction;
use crate::numbers::Numbers;
use crate::weighing::kept_or;
use book::{Limits, Station};
use edits::{SheetFault, carry_out, mass_at, set_mass};
use judging::{Occasion, judge};
use kinds::Judged;

// Puts a station's mass back as it was, by a clause of its own.
fn take_back<J: Judged>(stations: &mut [Station], nodes: &mut [J], station: usize, before: u32)
    ensures { Put J.Kind stations.old nodes.old station before stations.new nodes.new }
{
    set_mass(stations, nodes, station, before)
}

impl Numbers {
    // The allowance used with so many kilograms more, or why they are refused.
    fn spend(&self, size: u32) -> Result<u32, SheetFault>
        ensures { result ≡ (if nat_le (self.now.used + size) self.now.basic.allowance then Ok (self.now.used + size) else Err Over) }
    {
        let allowance = self.basic.allowance;
        self.used
            .checked_add(size)
            .filter(|used| *used <= allowance)
            .ok_or(SheetFault::OverAllowance)
    }

    // The allowance used with a change of this size that stands in memory, or why it may not stand there.
    fn settle<J: Judged>(
        &self,
        stations: &[Station],
        nodes: &[J],
        limits: &Limits<'_>,
        size: u32,
    ) -> Result<u32, SheetFault>
        ensures { Settled J.Kind self.now stations.now nodes.now limits.now size result }
    {
        let used = self.spend(size)?;
        let (code, _) = judge(&self.basic, stations, nodes, limits, Occasion::Standing);
        kept_or(code, SheetFault::Breaks { code })?;
        Ok(used)
    }

    // Changes a station's mass and answers the allowance then used; a change that may not stand is taken back.
    pub(crate) fn correct<J: Judged>(
        &self,
        stations: &mut [Station],
        nodes: &mut [J],
        limits: &Limits<'_>,
        asked: &Correction,
    ) -> Result<u32, SheetFault>
        ensures { Corrected J.Kind self.now stations.old nodes.old limits.now asked.now.station asked.now.kg result stations.new nodes.new }
    {
        self.check_brought(stations.len(), nodes.len(), limits)?;
        let before = mass_at(stations, asked.station);
        carry_out(self.n, stations, nodes, &asked.edit())?;
        // A closure, as of `inspect_err`, that writes what it borrowed would leave nothing known of it.
        let settled = self.settle(stations, nodes, limits, asked.size());
        if settled.is_err() {
            take_back(stations, nodes, asked.station, before);
        }
        settled
    }
}
