ghost use Rattle.book.specs.Envelopes.{polygon};
ghost use Rattle.stages.specs.Staged.{Staged};

use crate::back::{masses_aboard, take_back};
use crate::ending::Ending;
use crate::run::Run;
use book::{Basic, Limits, Station};
use kinds::Judged;

// How the stages of these records end: each is carried out on the deck as the one before left it, and the deck judged
// as between stages, up to the first that breaks a limit or is refused. In the end the deck is as it was. More
// than 256 stations are refused at once. The nodes are the deck's tree; on any others, and on records out of
// their limits, the answer is free.
#[tactic(auto, using(crate::proofs::Meanings::stages_mean))]
pub fn stages<J: Judged>(
    basic: &Basic,
    stations: &mut [Station],
    nodes: &mut [J],
    limits: &Limits<'_>,
    bytes: &[u8],
) -> Ending
    ensures { Staged J.Kind basic.now stations.old nodes.old limits.now.zones.now limits.now.frames.now (polygon limits.now.envelope.now) bytes.now result stations.new nodes.new }
{
    match masses_aboard(stations) {
        Ok(aboard) => {
            let run = Run {
                basic,
                limits,
                bytes,
            };
            let ending = run.carry_out_all(stations, nodes);
            take_back(stations, nodes, &aboard);
            ending
        }
        Err(fault) => Ending::Refused { stage: 0, fault },
    }
}
