// House summaries as they are printed.
use crate::or_word::OrWord;
use kinds::{House, MassMoment, Over};
use std::fmt;

#[derive(Clone, Copy)]
pub struct Summary(pub House);

impl fmt::Display for Summary {
    fn fmt<W: fmt::Write>(&self, f: &mut fmt::Formatter<W>) -> fmt::Result {
        let House {
            moments,
            load,
            floors,
        } = self.0;
        let MassMoment { mass, moment } = moments;
        let fore = OrWord(load.fore, "none");
        let aft = OrWord(load.aft, "none");
        let floor = OrWord(floors.first.map(Excess), "none");
        write!(
            f,
            "mass {mass} moment {moment} fore {fore} aft {aft} floor {floor}"
        )
    }
}

// A station over its floor limit.
#[derive(Clone, Copy)]
struct Excess(Over);

impl fmt::Display for Excess {
    fn fmt<W: fmt::Write>(&self, f: &mut fmt::Formatter<W>) -> fmt::Result {
        let Over { station, excess } = self.0;
        write!(f, "station {station} excess {excess}")
    }
}
