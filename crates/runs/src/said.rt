// What a call gave back, as an answer.
ghost use Rattle.std.specs.Prelude.{◌≡◌, Ok, Err};
ghost use Rattle.edits.specs.declared.fault.SheetFault.{SheetFault as Fault};
ghost use Rattle.sheet.specs.declared.answer.Answer.TheVariants.{Refused};
ghost use Rattle.sheet.specs.Memory.{edit_answer, range_answer, first_answer, judge_answer};
ghost use Rattle.sheet.specs.Tally.{ended};

use edits::SheetFault;
use sheet::Answer;
use stages::Ending;

// A refusal, or the answer that is made of anything else.
fn said<R, K: Drop, F: FnOnce(R) -> Answer<K>>(r: Result<R, SheetFault>, answer: F) -> Answer<K>
    requires { F.IsAlwaysCallable answer }
    ensures ok { (x : R) → r ≡ Ok x → F.post answer x result }
    ensures err { (fault : Fault) → r ≡ Err fault → result ≡ Refused fault }
{
    match r {
        Ok(x) => answer(x),
        Err(fault) => Answer::Refused(fault),
    }
}

pub(crate) fn edit_said<K: Drop>(r: Result<(), SheetFault>) -> Answer<K>
    ensures { result ≡ edit_answer r }
{
    said(r, |()| Answer::Done)
}

pub(crate) fn range_said<K: Drop>(r: Result<K, SheetFault>) -> Answer<K>
    ensures { result ≡ range_answer r }
{
    said(r, Answer::Summary)
}

pub(crate) fn first_said<K: Drop>(r: Result<Option<usize>, SheetFault>) -> Answer<K>
    ensures { result ≡ first_answer r }
{
    // A closure: the constructor by its name gets no proof, since its argument does not name `K`.
    said(r, |station| Answer::First(station))
}

pub(crate) fn judge_said<K: Drop>(r: Result<(u8, usize), SheetFault>) -> Answer<K>
    ensures { result ≡ judge_answer r }
{
    said(r, |(code, place)| Answer::Verdict { code, place })
}

// Not `From`, which would stand in `sheet`: what a call gave back becomes an answer in this file alone.
pub(crate) fn stages_said<K: Drop>(r: Ending) -> Answer<K>
    ensures { result ≡ ended r }
{
    match r {
        Ending::AllKept => Answer::NoStage,
        Ending::Broken { stage, code, place } => Answer::Stopped { stage, code, place },
        Ending::Refused { stage, fault } => Answer::StageRefused { stage, fault },
    }
}
