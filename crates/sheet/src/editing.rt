ghost use Rattle.sheet.specs.Calls.{Edited};

use crate::numbers::Numbers;
use book::Station;
use edits::{Edit, SheetFault, carry_out};
use kinds::Kind;

impl Numbers {
    // An edit on a planning sheet with these numbers.
    pub(crate) fn edit<K: Kind>(
        &self,
        stations: &mut [Station],
        nodes: &mut [K],
        edit: &Edit,
    ) -> Result<(), SheetFault>
        ensures { Edited K.Kind self.now stations.old nodes.old edit.now result stations.new nodes.new }
    {
        carry_out(self.n, stations, nodes, edit)
    }
}
