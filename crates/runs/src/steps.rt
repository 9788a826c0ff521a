ghost use Rattle.std.specs.Prelude.{◌≡◌, List, map};
ghost use Rattle.sheet.specs.declared.call.Call.{Call};
ghost use Rattle.sheet.specs.declared.states.Sheet.{Sheet};
ghost use Rattle.sheet.specs.declared.states.Sheet.TheVariants.{InPlanning};
ghost use Rattle.sheet.specs.Memory.{numbers_of, state_of, Sound, Step};

use book::Station;
use kinds::Test;
use sheet::{Answer, Planning};

// A sheet on which calls of one type are carried out, each of which is asked as a call of the sheet.
pub(crate) trait Steps<T: Test, C> {
    // What it reads as.
    ghost sheet: { Self → Sheet };

    // The sheet's call that one of these is, and those that a list of them is: the second is the first of each, and
    // has a name so that a list of the sheet's own calls is itself.
    ghost one: { C → Call T };

    ghost asked: { List C → List (Call T) };

    // The sheet that was just opened. Not `From`: its clause speaks of `sheet`.
    fn planned(opened: Planning) -> Self
        ensures { sheet result ≡ InPlanning opened };

    // The sheet after a call, and its answer.
    fn step(self, stations: &mut [Station], nodes: &mut [T::Of], call: &C) -> (Self, Answer<T::Of>)
        ensures { Sound T.Of.Kind (numbers_of (sheet self)) stations.old nodes.old → Step T.Of.Kind T.Test.meets (numbers_of (sheet self)) (state_of (sheet self)) stations.old nodes.old (one call.now) result.1 (numbers_of (sheet result.0)) (state_of (sheet result.0)) stations.new nodes.new };

    ghost each: { (calls : List C) → asked calls ≡ map one calls };
}
