ghost use Rattle.std.specs.Prelude.{◌≡◌, ◌<◌, [], ◌∷◌, length, map, unwrap_or, MatchResult};
ghost use Rattle.records.specs.Records.{fields_of};
ghost use Rattle.records.specs.Writing.{Put, Finished, Refused};

use crate::call::Call;
use crate::fault::RecordFault;

// How far a writer's memory is written.
#[derive(Clone, Copy)]
struct Place {
    at: usize,
}

// Puts the place back on every way out, unless the record was finished.
struct Mark<'a> {
    place: &'a mut Place,
    back_to: Option<usize>,
}

impl Drop for Mark<'_> {
    fn drop(self)
        ensures { self.exit.0.now.at ≡ unwrap_or self.entry.back_to self.entry.place.now.at }
    {
        let Mark { place, back_to } = self;
        if let Some(at) = back_to {
            place.at = at;
        }
    }
}

// Puts one field at the place, if there is room for it. A mark borrows the place alone, so the memory goes
// beside it.
fn put(out: &mut [u8], place: &mut Place, field: &[u8]) -> Result<(), RecordFault>
    ensures { Put (field.now ∷ []) out.old place.old.at out.new place.new.at result }
{
    // By a test and an index: after `get_mut` of a range the proof does not know what `out` holds.
    let end = place.at.saturating_add(field.len());
    if end > out.len() {
        return Err(RecordFault::NoRoom);
    }
    out[place.at..end].copy_from_slice(field);
    place.at = end;
    Ok(())
}

// Puts fields one after another, as far as there is room. With no field it could not say whether there is room.
fn put_all(out: &mut [u8], place: &mut Place, fields: &[&[u8]]) -> Result<(), RecordFault>
    requires { 0 < length fields.now }
    ensures { Put (map (λ field. field.now) fields.now) out.old place.old.at out.new place.new.at result }
{
    for field in fields {
        put(out, place, field)?;
    }
    Ok(())
}

// Puts the fields of a whole record, as far as there is room.
fn put_fields(out: &mut [u8], place: &mut Place, call: &Call) -> Result<(), RecordFault>
    ensures { Put (fields_of call.now) out.old place.old.at out.new place.new.at result }
{
    let form = call.form();
    let count = form.counted().to_le_bytes();
    let kind = u16::from(form).to_le_bytes();
    match *call {
        Call::Load { station, kg } | Call::Unload { station, kg } => put_all(
            out,
            place,
            &[&count, &kind, &station.to_le_bytes(), &kg.to_le_bytes()],
        ),
        Call::Shift { from, to, kg } => put_all(
            out,
            place,
            &[
                &count,
                &kind,
                &from.to_le_bytes(),
                &to.to_le_bytes(),
                &kg.to_le_bytes(),
            ],
        ),
        Call::Change { station, kg } => put_all(
            out,
            place,
            &[&count, &kind, &station.to_le_bytes(), &kg.to_le_bytes()],
        ),
    }
}

// Puts a whole record, or leaves the place as it was.
fn put_call(out: &mut [u8], place: &mut Place, call: &Call) -> Result<(), RecordFault>
    ensures { MatchResult result
        (λ _. Finished out.old place.old.at call.now out.new place.new.at)
        (λ f. Refused out.old place.old.at call.now f out.new place.new.at) }
{
    let mut mark = Mark {
        back_to: Some(place.at),
        place,
    };
    put_fields(out, mark.place, call)?;
    mark.back_to = None;
    Ok(())
}

// The caller's memory, and how far it is written.
#[derive(Drop)]
pub struct Writer<'a> {
    out: &'a mut [u8],
    place: Place,
}

impl<'a> Writer<'a> {
    // A writer at the first byte of this memory.
    pub fn new(out: &'a mut [u8]) -> Writer<'a>
        ensures { (result.out.ghost_name ≡ out.entry.ghost_name) × (result.out.now ≡ out.old) × (result.place.at ≡ 0) }
    {
        Writer {
            out,
            place: Place { at: 0 },
        }
    }

    // Writes the record of a call at the place, field by field.
    pub fn write(&mut self, call: &Call) -> Result<(), RecordFault>
        ensures written { MatchResult result
            (λ _. Finished self.old.out.now self.old.place.at call.now self.new.out.now self.new.place.at)
            (λ f. Refused self.old.out.now self.old.place.at call.now f self.new.out.now self.new.place.at) }
        ensures lender { self.new.out.ghost_name ≡ self.old.out.ghost_name }
    {
        put_call(self.out, &mut self.place, call)
    }

    // How many bytes the finished records take.
    pub fn written(&self) -> usize
        ensures { result ≡ self.now.place.at }
    {
        self.place.at
    }
}
