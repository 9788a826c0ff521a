// The entries of a book: each kind in a list of its own, where it is numbered from 0, and all in the order of the file.
ghost use Rattle.std.specs.Prelude.{◌≡◌, true, [], ◌∷◌, ◌++◌, is_some, IfOk, vec_len, OnOk};
ghost use Rattle.listing.specs.Added.{Added};

use crate::entry::Entry;
use crate::line::{read_told, told};
use crate::wrong::{BadLine, Wrong};
use book::{Basic, Frame, Station, Vertex, Zone};
use std::alloc::{AllocError, Global};

// An entry, and its number among those of its kind.
#[derive(Clone, Copy)]
pub struct Numbered {
    pub number: usize,
    pub entry: Entry,
}

#[derive(Drop)]
pub struct Lists {
    pub basic: Option<Basic>,
    pub stations: Vec<Station>,
    pub zones: Vec<Zone>,
    pub frames: Vec<Frame>,
    pub vertices: Vec<Vertex>,
    pub entries: Vec<Numbered>,
}

impl Lists {
    pub(crate) fn new(heap: Global) -> Lists {
        Lists {
            basic: None,
            stations: Vec::new(heap),
            zones: Vec::new(heap),
            frames: Vec::new(heap),
            vertices: Vec::new(heap),
            entries: Vec::new(heap),
        }
    }

    // Adds the entries of a text, up to the first line that cannot be read.
    pub(crate) fn fill<'a>(&mut self, text: &'a str) -> Result<(), BadLine<'a>> {
        for (index, line) in text.lines().enumerate() {
            let number = index.saturating_add(1);
            self.add_line(line)
                .map_err(|wrong| BadLine { number, wrong })?;
        }
        Ok(())
    }

    // Adds the entry of a line, if it has one. A basic record that is there stays.
    fn add_line<'a>(&mut self, line: &'a str) -> Result<(), Wrong<'a>>
        ensures { OnOk result (is_some self.old.basic ≡ true → self.new.basic ≡ self.old.basic) }
    {
        match read_told(told(line), "entry")? {
            Some(Entry::Basic(_)) if self.basic.is_some() => Err(Wrong::SecondBasic),
            Some(entry) => Ok(self.add(entry)?),
            None => Ok(()),
        }
    }

    // Adds an entry to its list and to all of them, where memory does not fail.
    fn add(&mut self, entry: Entry) -> Result<(), AllocError>
        ensures { OnOk result (Added self.old entry self.new) }
    {
        let number = match entry {
            Entry::Basic(basic) => {
                self.basic = Some(basic);
                0
            }
            Entry::Station(station) => appended(&mut self.stations, station)?,
            Entry::Zone(zone) => appended(&mut self.zones, zone)?,
            Entry::Frame(frame) => appended(&mut self.frames, frame)?,
            Entry::Vertex(vertex) => appended(&mut self.vertices, vertex)?,
        };
        self.entries.push(Numbered { number, entry })?;
        Ok(())
    }
}

// Adds an item at the end of its list, and says its place there.
fn appended<T: Drop>(list: &mut Vec<T>, item: T) -> Result<usize, AllocError>
    ensures { IfOk result (λ place. (place ≡ vec_len list.old) × (list.new.items ≡ list.old.items ++ item ∷ [])) }
{
    let place = list.len();
    list.push(item)?;
    Ok(place)
}
