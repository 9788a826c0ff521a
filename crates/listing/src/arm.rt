// An arm in words, so that a sign that was lost is seen.
ghost use Rattle.std.specs.Prelude.{◌≡◌, ◌<◌, ◌++◌, pos, neg_ℤ, Some, codes, decimal};
ghost use Rattle.listing.specs.declared.arm.Arm.TheVariants.{Ahead, Datum, Aft};

use std::fmt;

// Where an arm is, in centimetres from the datum.
#[derive(Clone, Copy)]
pub enum Arm {
    Ahead(u32),
    Datum,
    Aft(u32),
}

impl From<i32> for Arm {
    ghost from_gives = { λ arm r. elim r [ Ahead cm ↦ (0 < cm) × (arm ≡ neg_ℤ (pos cm)) | Datum ↦ arm ≡ pos 0 | Aft cm ↦ (0 < cm) × (arm ≡ pos cm) ] };

    fn from(arm: i32) -> Arm {
        let cm = arm.unsigned_abs();
        if arm < 0 {
            Arm::Ahead(cm)
        } else if arm == 0 {
            Arm::Datum
        } else {
            Arm::Aft(cm)
        }
    }
}

impl fmt::Display for Arm {
    ghost output = { λ arm. elim arm [ Ahead cm ↦ Some (decimal cm ++ codes " cm ahead of the datum") | Datum ↦ Some (codes "0 cm, at the datum") | Aft cm ↦ Some (decimal cm ++ codes " cm aft of the datum") ] };

    fn fmt<W: fmt::Write>(&self, f: &mut fmt::Formatter<W>) -> fmt::Result {
        match self {
            Arm::Ahead(cm) => write!(f, "{cm} cm ahead of the datum"),
            Arm::Datum => f.write_str("0 cm, at the datum"),
            Arm::Aft(cm) => write!(f, "{cm} cm aft of the datum"),
        }
    }
}
