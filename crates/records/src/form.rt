ghost use Rattle.std.specs.Prelude.{◌≡◌, ok_or};
ghost use Rattle.records.specs.Forms.{kind_of, counted_of, form_of_kind};

// The four forms of a call record.
#[derive(Clone, Copy, Debug, PartialEq, Eq)]
pub(crate) enum Form {
    Load,
    Unload,
    Shift,
    Change,
}

// A kind number that no form has.
#[derive(Clone, Copy, Debug, PartialEq, Eq)]
pub(crate) struct NoForm;

// The form with this kind number, if there is one.
impl TryFrom<u16> for Form {
    type Error = NoForm;

    ghost try_from_gives = { λ kind result. result ≡ ok_or (form_of_kind kind) (record {}) };

    fn try_from(kind: u16) -> Result<Form, NoForm> {
        match kind {
            1 => Ok(Form::Load),
            2 => Ok(Form::Unload),
            3 => Ok(Form::Shift),
            4 => Ok(Form::Change),
            _ => Err(NoForm),
        }
    }
}

// The kind number that a record of this form carries.
impl From<Form> for u16 {
    ghost from_gives = { λ form kind. kind ≡ kind_of form };

    fn from(form: Form) -> u16 {
        match form {
            Form::Load => 1,
            Form::Unload => 2,
            Form::Shift => 3,
            Form::Change => 4,
        }
    }
}

impl Form {
    // The length that a record of this form carries: its kind and its body in bytes.
    pub(crate) fn counted(self) -> u16
        ensures { result ≡ counted_of self }
    {
        match self {
            Form::Load | Form::Unload | Form::Change => 8,
            Form::Shift => 10,
        }
    }
}
