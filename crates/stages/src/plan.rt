ghost use Rattle.std.specs.Prelude.{◌≡◌, ℕ, ◌<◌, Ok};
ghost use Rattle.book.specs.Refusals.{answer};
ghost use Rattle.edits.specs.declared.edit.Edit.{Edit as AnEdit};
ghost use Rattle.stages.specs.Plans.{number_refusal, planned};
ghost use Rattle.stages.specs.Staging.{is_change, stage_fault, stage_edit};

use book::BookFault;
use edits::{Edit, SheetFault};
use records::{Call, RecordFault, read};

// Refuses a 257th stage.
fn check_number(stage: usize) -> Result<(), SheetFault>
    ensures { result ≡ answer (number_refusal stage) tt }
{
    if stage < 256 {
        Ok(())
    } else {
        Err(SheetFault::TooManyStages)
    }
}

// The edit that a record asks for; a change is no stage, and its kind is unknown here.
fn edit_of(call: Call, at: usize) -> Result<Edit, SheetFault>
    ensures { result ≡ stage_edit call at }
{
    match call {
        Call::Load { station, kg } => Ok(Edit::load(usize::from(station), kg)),
        Call::Unload { station, kg } => Ok(Edit::unload(usize::from(station), kg)),
        Call::Shift { from, to, kg } => Ok(Edit::shift(usize::from(from), usize::from(to), kg)),
        Call::Change { .. } => Err(BookFault::from(RecordFault::UnknownKind { at }).into()),
    }
}

// Whether the record at a place is one of a change: two bytes of length, and kind 4 in two.
fn is_change(bytes: &[u8], at: usize) -> bool
    ensures { result ≡ is_change bytes.now at }
{
    matches!(bytes.get(at..), Some([_, _, 4, 0, ..]))
}

// What is wrong with a record here: a change is of a kind unknown, whatever its length.
fn fault_here(fault: RecordFault, bytes: &[u8], at: usize) -> RecordFault
    ensures { result ≡ stage_fault bytes.now at fault }
{
    match fault {
        RecordFault::WrongLength { at: place } if is_change(bytes, at) => RecordFault::UnknownKind {
            at: place,
        },
        other => other,
    }
}

// What this stage is to carry out, and where the next record begins. A record's fault goes up whole.
pub(crate) fn plan(stage: usize, bytes: &[u8], at: usize) -> Result<(Edit, usize), SheetFault>
    ensures value { result ≡ planned stage bytes.now at }
    ensures further { (e : AnEdit) (next : ℕ) → result ≡ Ok (e, next) → (stage < 256) × (at < next) }
{
    check_number(stage)?;
    let (call, next) = read(bytes, at).map_err(|fault| {
        BookFault::from(fault_here(fault, bytes, at))
    })?;
    Ok((edit_of(call, at)?, next))
}
