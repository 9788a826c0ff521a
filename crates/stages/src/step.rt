ghost use Rattle.std.specs.Prelude.{◌≡◌};
ghost use Rattle.stages.specs.Steps.{step_of};

use crate::ending::Ending;
use edits::SheetFault;

// After a stage: where the next record begins, or how the stages end. A deck that keeps every limit goes on, any other
// stops the stages, and so does a refusal.
pub(crate) fn step_of(
    stage: usize,
    next: usize,
    judged: Result<(u8, usize), SheetFault>,
) -> Result<usize, Ending>
    ensures { result ≡ step_of stage next judged }
{
    // A match: by `map_err` and `?` it stayed unproved which fault refused the stage.
    match judged {
        Ok((0, _)) => Ok(next),
        Ok((code, place)) => Err(Ending::Broken { stage, code, place }),
        Err(fault) => Err(Ending::Refused { stage, fault }),
    }
}
