// What a sheet is carried out on: the station records, their node memory and the limits of the book.
use crate::nodes::nodes_of;
use book::{Basic, Limits, Station};
use edits::SheetFault;
use kinds::{AtLeast, ForeBroken, House, MassMoment};
use runs::step;
use sheet::{Answer, Call, Inspect, Planning, Sheet};
use std::alloc::{AllocError, Global};

#[derive(Drop)]
pub struct Desk<'a> {
    pub basic: Basic,
    pub stations: Vec<Station>,
    pub nodes: Vec<House>,
    pub limits: Limits<'a>,
}

impl Desk<'_> {
    // The sheet after a call, and its answer.
    pub(crate) fn step(
        &mut self,
        sheet: Sheet,
        call: &Call<'_, ForeBroken>,
    ) -> (Sheet, Answer<House>) {
        step(
            sheet,
            self.stations.as_mut_slice(),
            self.nodes.as_mut_slice(),
            call,
        )
    }

    // The first station up to which the masses come to so much.
    pub(crate) fn first_mass(&self, heap: Global, mass: i64) -> Result<Answer<House>, AllocError> {
        let stations = self.stations.as_slice();
        let mut nodes = nodes_of::<MassMoment>(heap, stations.len())?;
        let drafted = drafted(stations, nodes.as_mut_slice(), self.basic, mass);
        Ok(drafted.map_or_else(Answer::Refused, Answer::First))
    }
}

// The same by a draft: a second sheet, of mass and moment alone, on the same records.
fn drafted(
    stations: &[Station],
    nodes: &mut [MassMoment],
    basic: Basic,
    mass: i64,
) -> Result<Option<usize>, SheetFault> {
    let draft = Planning::open(stations, nodes, basic)?;
    draft.first(stations, nodes, &AtLeast { mass })
}
