ghost use Rattle.std.specs.Prelude.{◌≡◌};
ghost use Rattle.book.specs.Refusals.{answer};
ghost use Rattle.edits.specs.Edits.{memory_refusal};

use crate::fault::SheetFault;
use tree::fits;

// Refuses station or node memory that is not that of a sheet of `n` stations.
pub fn check_memory(n: usize, stations: usize, nodes: usize) -> Result<(), SheetFault>
    ensures { result ≡ answer (memory_refusal n stations nodes) tt }
{
    if stations == n && fits(n, nodes) {
        Ok(())
    } else {
        Err(SheetFault::OtherLength)
    }
}
