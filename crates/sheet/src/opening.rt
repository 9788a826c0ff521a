ghost use Rattle.std.specs.Prelude.{◌≡◌, length};
ghost use Rattle.book.specs.Refusals.{answer};
ghost use Rattle.sheet.specs.Opening.{opening_refusal, Opened};

use crate::numbers::Numbers;
use crate::states::Planning;
use book::{Basic, Station, check_count, check_stations};
use edits::{SheetFault, check_memory};
use kinds::Kind;
use tree::fill;

// Why an opening is refused, first: how many stations, the node memory, each station, the basic record.
fn check_opening(stations: &[Station], nodes: usize, basic: &Basic) -> Result<(), SheetFault>
    ensures { result ≡ answer (opening_refusal basic.now stations.now nodes) tt }
{
    check_count(stations)?;
    check_memory(stations.len(), stations.len(), nodes)?;
    check_stations(stations)?;
    basic.check()?;
    Ok(())
}

// Opens a sheet on the masses aboard. Apart from `Planning::open`, so that an opening of other records is refused at its
// promise and not in this proof.
pub(crate) fn opened<K: Kind>(
    stations: &[Station],
    nodes: &mut [K],
    basic: Basic,
) -> Result<Planning, SheetFault>
    ensures { Opened K.Kind basic stations.now nodes.old result nodes.new }
{
    check_opening(stations, nodes.len(), &basic)?;
    fill(nodes, stations).unwrap();
    let numbers = Numbers {
        n: stations.len(),
        basic,
        used: 0,
    };
    Ok(Planning { numbers })
}
