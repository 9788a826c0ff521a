ghost use Rattle.std.specs.Prelude.{◌≡◌};
ghost use Rattle.records.specs.Records.{form_of};

use crate::form::Form;

// What a planner asks of a sheet, with the fields that its record carries.
#[derive(Clone, Copy, Debug, PartialEq, Eq)]
pub enum Call {
    Load { station: u16, kg: u32 },
    Unload { station: u16, kg: u32 },
    Shift { from: u16, to: u16, kg: u32 },
    Change { station: u16, kg: i32 },
}

impl Call {
    // Which of the four forms this call has.
    pub(crate) fn form(&self) -> Form
        ensures { result ≡ form_of self.now }
    {
        match self {
            Call::Load { .. } => Form::Load,
            Call::Unload { .. } => Form::Unload,
            Call::Shift { .. } => Form::Shift,
            Call::Change { .. } => Form::Change,
        }
    }
}
