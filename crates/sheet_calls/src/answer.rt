// Answers as they are printed.
use crate::deck_tree::station_said;
use book::Station;
use kinds::House;
use listing::{Refusal, Summary};
use sheet::{Answer, Sheet};
use std::fmt;
use std::fmt::Display;

// The answer to a call.
#[derive(Clone, Copy)]
pub struct Said(pub Answer<House>);

impl fmt::Display for Said {
    fn fmt<W: fmt::Write>(&self, f: &mut fmt::Formatter<W>) -> fmt::Result {
        match self.0 {
            Answer::Done => f.write_str("done"),
            Answer::Refused(fault) => Refusal(fault).fmt(f),
            Answer::Summary(house) => Summary(house).fmt(f),
            Answer::First(station) => station_said(station).fmt(f),
            Answer::Verdict { code, place } => write!(f, "verdict {code} place {place}"),
            Answer::NoStage => f.write_str("none"),
            Answer::Stopped { stage, code, place } => {
                write!(f, "stage {stage} verdict {code} place {place}")
            }
            Answer::StageRefused { stage, fault } => {
                let refusal = Refusal(fault);
                write!(f, "{refusal} stage {stage}")
            }
            Answer::NotAdmitted => f.write_str("not admitted"),
        }
    }
}

// A sheet's state, and the masses aboard.
#[derive(Clone, Copy)]
pub struct Shown<'a> {
    pub sheet: &'a Sheet,
    pub stations: &'a [Station],
}

impl fmt::Display for Shown<'_> {
    fn fmt<W: fmt::Write>(&self, f: &mut fmt::Formatter<W>) -> fmt::Result {
        let state = match self.sheet {
            Sheet::InPlanning(_) => "planning",
            Sheet::InRelease(_) => "released",
        };
        let used = self.sheet.used();
        write!(f, "{state} used {used} masses")?;
        for Station { mass, .. } in self.stations {
            write!(f, " {mass}")?;
        }
        Ok(())
    }
}
