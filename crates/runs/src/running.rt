ghost use Rattle.std.specs.Prelude.{◌≤◌, length, take};
ghost use Rattle.runs.specs.Law.{RunFrom, Begun};
ghost use Rattle.sheet.specs.Memory.{numbers_of, state_of, Sound};

use crate::steps::Steps;
use crate::unrun::Unrun;
use book::{Basic, Station};
use kinds::{Kind, Test};
use sheet::{Answer, Planning};

// Carries out calls in order, and hands out each answer. The answers are written by index: under a `zip` with
// `iter_mut` the proof knows nothing of them.
fn go_on<T: Test, C, S: Steps<T, C>>(
    mut sheet: S,
    stations: &mut [Station],
    nodes: &mut [T::Of],
    calls: &[C],
    answers: &mut [Answer<T::Of>],
) -> S
    requires { length calls.now ≤ length answers.old }
    ensures { Sound T.Of.Kind (numbers_of (S.sheet sheet)) stations.old nodes.old → RunFrom T.Of.Kind T.Test.meets (numbers_of (S.sheet sheet)) (state_of (S.sheet sheet)) stations.old (S.asked calls.now) (take (length calls.now) answers.new) (numbers_of (S.sheet result)) (state_of (S.sheet result)) stations.new nodes.new }
{
    for (i, call) in calls.iter().enumerate() {
        (sheet, answers[i]) = sheet.step(stations, nodes, call);
    }
    sheet
}

// Opens a sheet and carries out calls.
pub(crate) fn run<T: Test, C, S: Steps<T, C>>(
    stations: &mut [Station],
    nodes: &mut [T::Of],
    basic: Basic,
    calls: &[C],
    answers: &mut [Answer<T::Of>],
) -> Result<S, Unrun>
    ensures { Begun T.Of.Kind T.Test.meets S.asked S.sheet basic stations.old nodes.old calls.now answers.old result stations.new nodes.new answers.new }
{
    if calls.len() > answers.len() {
        return Err(Unrun::NoRoom);
    }
    let opened = Planning::open(stations, nodes, basic)?;
    Ok(go_on(S::planned(opened), stations, nodes, calls, answers))
}
