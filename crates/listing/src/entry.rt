// What one line of a book says.
ghost use Rattle.std.specs.Prelude.{◌≡◌};
ghost use Rattle.listing.specs.Lines.{entry_word};

use crate::fields::Fields;
use crate::line::Line;
use crate::wrong::Wrong;
use book::{Basic, Frame, Side, Station, Vertex, Zone};

#[derive(Clone, Copy)]
pub enum Entry {
    Basic(Basic),
    Station(Station),
    Zone(Zone),
    Frame(Frame),
    Vertex(Vertex),
}

impl Line for Entry {
    const KNOWN: &'static str = "basic, station, zone, frame or vertex";

    ghost says = { λ first entry. first ≡ entry_word entry };

    fn read<'a>(first: &str, fields: &mut Fields<'a>) -> Result<Option<Entry>, Wrong<'a>> {
        match first {
            "basic" => Ok(Some(Entry::Basic(basic(fields)?))),
            "station" => Ok(Some(Entry::Station(station(fields)?))),
            "zone" => Ok(Some(Entry::Zone(zone(fields)?))),
            "frame" => Ok(Some(Entry::Frame(frame(fields)?))),
            "vertex" => Ok(Some(Entry::Vertex(vertex(fields)?))),
            _ => Ok(None),
        }
    }
}

fn basic<'a>(fields: &mut Fields<'a>) -> Result<Basic, Wrong<'a>> {
    Ok(Basic {
        mass: fields.number("mass")?,
        moment: fields.number("moment")?,
        tip_arm: fields.number("tip arm")?,
        allowance: fields.number("allowance")?,
    })
}

fn station<'a>(fields: &mut Fields<'a>) -> Result<Station, Wrong<'a>> {
    Ok(Station {
        arm: fields.number("arm")?,
        floor: fields.number("floor limit")?,
        fore: fields.limit("fore limit")?,
        aft: fields.limit("aft limit")?,
        mass: fields.number("mass")?,
    })
}

fn zone<'a>(fields: &mut Fields<'a>) -> Result<Zone, Wrong<'a>> {
    Ok(Zone {
        from: fields.number("first station")?,
        to: fields.number("end station")?,
        limit: fields.number("limit")?,
    })
}

fn frame<'a>(fields: &mut Fields<'a>) -> Result<Frame, Wrong<'a>> {
    Ok(Frame {
        arm: fields.number("arm")?,
        side: side(fields)?,
        limit: fields.number("limit")?,
    })
}

fn side<'a>(fields: &mut Fields<'a>) -> Result<Side, Wrong<'a>> {
    match fields.word("side")? {
        "fore" => Ok(Side::Fore),
        "aft" => Ok(Side::Aft),
        word => Err(Wrong::Unfit {
            field: "side",
            word,
            wanted: "fore or aft",
        }),
    }
}

fn vertex<'a>(fields: &mut Fields<'a>) -> Result<Vertex, Wrong<'a>> {
    Ok(Vertex {
        mass: fields.number("mass")?,
        moment: fields.number("moment")?,
    })
}
