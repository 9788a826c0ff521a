ghost use Rattle.std.specs.Prelude.{◌≡◌};
ghost use Rattle.std.proofs.Common.{sym};
ghost use Rattle.std.proofs.lemmas.List.{map-id};
ghost use Rattle.sheet.specs.declared.states.Sheet.TheVariants.{InPlanning};
ghost use Rattle.sheet.specs.Memory.{numbers_of, state_of, Sound, Step};
ghost use Rattle.sheet.specs.Tally.{planning, released};

use crate::said::{edit_said, first_said, judge_said, range_said, stages_said};
use crate::steps::Steps;
use book::Station;
use kinds::{Judged, Kind, Test};
use sheet::{Answer, Call, Inspect, Planning, Released, Sheet};

// A call on a planning sheet: the sheet after it, and its answer. The call is read through its loan, since a test
// need not be `Copy`.
fn plan<'a, T: Test>(
    sheet: Planning,
    stations: &mut [Station],
    nodes: &mut [T::Of],
    call: &Call<'a, T>,
) -> (Sheet, Answer<T::Of>)
where
    T::Of: Judged,
    ensures { Sound T.Of.Kind sheet.numbers stations.old nodes.old → Step T.Of.Kind T.Test.meets sheet.numbers planning stations.old nodes.old call.now result.1 (numbers_of result.0) (state_of result.0) stations.new nodes.new }
{
    let answer = match call {
        Call::Load { station, kg } => edit_said(sheet.load(stations, nodes, *station, *kg)),
        Call::Unload { station, kg } => edit_said(sheet.unload(stations, nodes, *station, *kg)),
        Call::Shift { from, to, kg } => edit_said(sheet.shift(stations, nodes, *from, *to, *kg)),
        Call::Range { from, to } => range_said(sheet.range(stations, nodes, *from, *to)),
        Call::First { test } => first_said(sheet.first(stations, nodes, test)),
        Call::Judge { limits } => judge_said(sheet.judge(stations, nodes, limits)),
        Call::Stages { limits, bytes } => stages_said(sheet.stages(stations, nodes, limits, bytes)),
        Call::Release { limits } => {
            return match sheet.release(stations, nodes, limits) {
                Ok(sheet) => (Sheet::InRelease(sheet), Answer::Done),
                Err((sheet, fault)) => (Sheet::InPlanning(sheet), Answer::Refused(fault)),
            };
        }
        Call::Change { .. } | Call::Reopen => Answer::NotAdmitted,
    };
    (Sheet::InPlanning(sheet), answer)
}

// A call on a released sheet: the sheet after it, and its answer.
fn keep<'a, T: Test>(
    mut sheet: Released,
    stations: &mut [Station],
    nodes: &mut [T::Of],
    call: &Call<'a, T>,
) -> (Sheet, Answer<T::Of>)
where
    T::Of: Judged,
    ensures { Sound T.Of.Kind sheet.numbers stations.old nodes.old → Step T.Of.Kind T.Test.meets sheet.numbers released stations.old nodes.old call.now result.1 (numbers_of result.0) (state_of result.0) stations.new nodes.new }
{
    let answer = match call {
        Call::Range { from, to } => range_said(sheet.range(stations, nodes, *from, *to)),
        Call::First { test } => first_said(sheet.first(stations, nodes, test)),
        Call::Judge { limits } => judge_said(sheet.judge(stations, nodes, limits)),
        Call::Change { limits, asked } => edit_said(sheet.change(stations, nodes, limits, asked)),
        Call::Reopen => {
            return match sheet.reopen(stations, nodes) {
                Ok(sheet) => (Sheet::InPlanning(sheet), Answer::Done),
                Err((sheet, fault)) => (Sheet::InRelease(sheet), Answer::Refused(fault)),
            };
        }
        Call::Load { .. }
        | Call::Unload { .. }
        | Call::Shift { .. }
        | Call::Stages { .. }
        | Call::Release { .. } => Answer::NotAdmitted,
    };
    (Sheet::InRelease(sheet), answer)
}

// Any call, on a sheet in either state.
impl<'a, T: Test> Steps<T, Call<'a, T>> for Sheet
where
    T::Of: Judged,
{
    ghost sheet = { λ sheet. sheet };

    ghost one = { λ call. call };

    ghost asked = { λ calls. calls };

    ghost each = { λ calls. sym (map-id calls) };

    fn planned(opened: Planning) -> Sheet
        ensures { result ≡ InPlanning opened }
    {
        Sheet::InPlanning(opened)
    }

    fn step(
        self,
        stations: &mut [Station],
        nodes: &mut [T::Of],
        call: &Call<'a, T>,
    ) -> (Sheet, Answer<T::Of>)
        ensures { Sound T.Of.Kind (numbers_of self) stations.old nodes.old → Step T.Of.Kind T.Test.meets (numbers_of self) (state_of self) stations.old nodes.old call.now result.1 (numbers_of result.0) (state_of result.0) stations.new nodes.new }
    {
        match self {
            Sheet::InPlanning(sheet) => plan(sheet, stations, nodes, call),
            Sheet::InRelease(sheet) => keep(sheet, stations, nodes, call),
        }
    }
}
