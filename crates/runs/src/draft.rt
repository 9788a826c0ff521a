ghost use Rattle.std.specs.Prelude.{map, refl};
ghost use Rattle.runs.specs.Drafts.{call_of};
ghost use Rattle.sheet.specs.declared.states.Sheet.TheVariants.{InPlanning};
ghost use Rattle.sheet.specs.Memory.{Sound, Step};
ghost use Rattle.sheet.specs.Tally.{planning};

use crate::ask::Ask;
use crate::said::{edit_said, first_said, range_said};
use crate::steps::Steps;
use book::Station;
use kinds::{Kind, Test};
use sheet::{Answer, Inspect, Planning};

// Calls that need no judging, on a planning sheet of any kind.
impl<T: Test> Steps<T, Ask<T>> for Planning {
    ghost sheet = { InPlanning };

    ghost one = { call_of };

    ghost asked = { map call_of };

    ghost each = { λ asks. refl };

    fn planned(opened: Planning) -> Planning {
        opened
    }

    fn step(
        self,
        stations: &mut [Station],
        nodes: &mut [T::Of],
        asked: &Ask<T>,
    ) -> (Planning, Answer<T::Of>) {
        let answer = ask(&self, stations, nodes, asked);
        (self, answer)
    }
}

// A call that needs no judging, on a planning sheet of any kind.
fn ask<T: Test>(
    sheet: &Planning,
    stations: &mut [Station],
    nodes: &mut [T::Of],
    asked: &Ask<T>,
) -> Answer<T::Of>
    ensures { Sound T.Of.Kind sheet.now.numbers stations.old nodes.old → Step T.Of.Kind T.Test.meets sheet.now.numbers planning stations.old nodes.old (call_of asked.now) result sheet.now.numbers planning stations.new nodes.new }
{
    match asked {
        Ask::Load { station, kg } => edit_said(sheet.load(stations, nodes, *station, *kg)),
        Ask::Unload { station, kg } => edit_said(sheet.unload(stations, nodes, *station, *kg)),
        Ask::Shift { from, to, kg } => edit_said(sheet.shift(stations, nodes, *from, *to, *kg)),
        Ask::Range { from, to } => range_said(sheet.range(stations, nodes, *from, *to)),
        Ask::First { test } => first_said(sheet.first(stations, nodes, test)),
    }
}
