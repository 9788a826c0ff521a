ghost use Rattle.std.specs.Prelude.{◌≡◌, unsigned_abs};
ghost use Rattle.sheet.specs.Tally.{changing};

use edits::Edit;

// A change of a station's mass after release, in signed kilograms.
#[derive(Clone, Copy)]
pub struct Correction {
    pub station: usize,
    pub kg: i32,
}

impl Correction {
    // Its kilograms without their sign, which count against the allowance.
    pub(crate) fn size(&self) -> u32
        ensures { result ≡ unsigned_abs self.now.kg }
    {
        self.kg.unsigned_abs()
    }

    // The edit that it asks for: less than 0 is taken off.
    pub(crate) fn edit(&self) -> Edit
        ensures { result ≡ changing self.now.station self.now.kg }
    {
        if self.kg >= 0 {
            Edit::load(self.station, self.size())
        } else {
            Edit::unload(self.station, self.size())
        }
    }
}
