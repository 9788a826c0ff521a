ghost use Rattle.runs.specs.Drafts.{Drafted};
ghost use Rattle.runs.specs.Law.{Replayed};
ghost use Rattle.sheet.specs.Memory.{numbers_of, state_of, Sound, Step};

use crate::ask::Ask;
use crate::running::run;
use crate::steps::Steps;
use crate::unrun::Unrun;
use book::{Basic, Station};
use kinds::{Judged, Kind, Test};
use sheet::{Answer, Call, Planning, Sheet};

// A call on a sheet in either state: the sheet after it, and its answer.
pub fn step<'a, T: Test>(
    sheet: Sheet,
    stations: &mut [Station],
    nodes: &mut [T::Of],
    call: &Call<'a, T>,
) -> (Sheet, Answer<T::Of>)
where
    T::Of: Judged,
    ensures { Sound T.Of.Kind (numbers_of sheet) stations.old nodes.old → Step T.Of.Kind T.Test.meets (numbers_of sheet) (state_of sheet) stations.old nodes.old call.now result.1 (numbers_of result.0) (state_of result.0) stations.new nodes.new }
{
    sheet.step(stations, nodes, call)
}

// Opens a sheet on the masses aboard, carries out any list of calls in order, and hands out each answer.
pub fn replay<'a, T: Test>(
    stations: &mut [Station],
    nodes: &mut [T::Of],
    basic: Basic,
    calls: &[Call<'a, T>],
    answers: &mut [Answer<T::Of>],
) -> Result<Sheet, Unrun>
where
    T::Of: Judged,
    ensures { Replayed T.Of.Kind T.Test.meets basic stations.old nodes.old calls.now answers.old result stations.new nodes.new answers.new }
{
    run::<T, _, _>(stations, nodes, basic, calls, answers)
}

// The same for a sheet of any kind, with calls that need no judging.
pub fn replay_draft<T: Test>(
    stations: &mut [Station],
    nodes: &mut [T::Of],
    basic: Basic,
    asks: &[Ask<T>],
    answers: &mut [Answer<T::Of>],
) -> Result<Planning, Unrun>
    ensures { Drafted T.Of.Kind T.Test.meets basic stations.old nodes.old asks.now answers.old result stations.new nodes.new answers.new }
{
    run::<T, _, _>(stations, nodes, basic, asks, answers)
}
