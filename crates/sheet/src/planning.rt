ghost use Rattle.edits.specs.Edits.{loading, unloading, shifting};
ghost use Rattle.sheet.specs.Tally.{planning};
ghost use Rattle.sheet.specs.Weighing.{Freed};
ghost use Rattle.sheet.specs.Rehearsing.{Rehearsed};
ghost use Rattle.sheet.specs.Calls.{Edited};
ghost use Rattle.sheet.specs.Opening.{Opened};

use crate::inspect::Inspect;
use crate::numbers::Numbers;
use crate::opening::opened;
use crate::states::{Planning, Released};
use book::{Basic, Limits, Station};
use edits::{Edit, SheetFault};
use kinds::{Judged, Kind};
use stages::Ending;

impl Planning {
    // Opens a sheet on the masses aboard.
    pub fn open<K: Kind>(
        stations: &[Station],
        nodes: &mut [K],
        basic: Basic,
    ) -> Result<Planning, SheetFault>
        ensures { Opened K.Kind basic stations.now nodes.old result nodes.new }
    {
        opened(stations, nodes, basic)
    }

    // Puts kilograms onto a station.
    pub fn load<K: Kind>(
        &self,
        stations: &mut [Station],
        nodes: &mut [K],
        station: usize,
        kg: u32,
    ) -> Result<(), SheetFault>
        ensures { Edited K.Kind self.now.numbers stations.old nodes.old (loading station kg) result stations.new nodes.new }
    {
        self.numbers.edit(stations, nodes, &Edit::load(station, kg))
    }

    // Takes kilograms off a station.
    pub fn unload<K: Kind>(
        &self,
        stations: &mut [Station],
        nodes: &mut [K],
        station: usize,
        kg: u32,
    ) -> Result<(), SheetFault>
        ensures { Edited K.Kind self.now.numbers stations.old nodes.old (unloading station kg) result stations.new nodes.new }
    {
        self.numbers
            .edit(stations, nodes, &Edit::unload(station, kg))
    }

    // Moves kilograms from one station to another.
    pub fn shift<K: Kind>(
        &self,
        stations: &mut [Station],
        nodes: &mut [K],
        from: usize,
        to: usize,
        kg: u32,
    ) -> Result<(), SheetFault>
        ensures { Edited K.Kind self.now.numbers stations.old nodes.old (shifting from to kg) result stations.new nodes.new }
    {
        self.numbers
            .edit(stations, nodes, &Edit::shift(from, to, kg))
    }

    // Gives a released sheet, its allowance unused, where every limit is kept, or this one back.
    pub fn release<J: Judged>(
        self,
        stations: &[Station],
        nodes: &[J],
        limits: &Limits<'_>,
    ) -> Result<Released, (Planning, SheetFault)>
        ensures { Freed J.Kind self stations.now nodes.now limits.now result }
    {
        match self.numbers.weigh(stations, nodes, limits) {
            Ok(()) => Ok(Released {
                numbers: Numbers {
                    used: 0,
                    ..self.numbers
                },
            }),
            Err(fault) => Err((self, fault)),
        }
    }

    // Carries out call records one by one, judges after each, and takes all back.
    pub fn stages<J: Judged>(
        &self,
        stations: &mut [Station],
        nodes: &mut [J],
        limits: &Limits<'_>,
        bytes: &[u8],
    ) -> Ending
        ensures { Rehearsed J.Kind self.now.numbers stations.old nodes.old limits.now bytes.entry result stations.new nodes.new }
    {
        self.numbers.stages(stations, nodes, limits, bytes)
    }
}

impl Inspect for Planning {
    ghost carried = { λ sheet. sheet.numbers };

    ghost state = { planning };

    fn numbers(&self) -> Numbers {
        self.numbers
    }
}
