// A call as it would be typed.
use records::Call;
use std::fmt;

#[derive(Clone, Copy)]
pub struct CallText(pub Call);

impl fmt::Display for CallText {
    fn fmt<W: fmt::Write>(&self, f: &mut fmt::Formatter<W>) -> fmt::Result {
        match self.0 {
            Call::Load { station, kg } => write!(f, "load {station} {kg}"),
            Call::Unload { station, kg } => write!(f, "unload {station} {kg}"),
            Call::Shift { from, to, kg } => write!(f, "shift {from} {to} {kg}"),
            Call::Change { station, kg } => write!(f, "change {station} {kg}"),
        }
    }
}
