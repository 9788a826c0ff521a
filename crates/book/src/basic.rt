ghost use Rattle.std.specs.Prelude.{◌≡◌, ◌≤ℤ◌, Decides, int_le};
ghost use Rattle.book.specs.Fields.{basic_in};
ghost use Rattle.book.specs.Refusals.{answer, basic_refusal};
ghost use Rattle.book.specs.Sums.{tip_kept, TipKept};

use crate::fault::BookFault;
use crate::ranges::arm_in;
use crate::totals::Totals;
use crate::turn::product;

// The empty aircraft: its mass and moment, the arm behind which it tips on its tail, and how many
// kilograms may be changed after release.
#[derive(Clone, Copy, Debug, PartialEq, Eq)]
pub struct Basic {
    pub mass: u32,
    pub moment: i64,
    pub tip_arm: i32,
    pub allowance: u32,
}

// Whether a moment is at most this one: by itself, so that a wrong comparison fails at this clause.
fn at_most(moment: i64, most: i128) -> bool
    ensures value { result ≡ int_le moment most }
    ensures means { Decides result (moment ≤ℤ most) }
{
    i128::from(moment) <= most
}

impl Basic {
    // Every field lies in its limits, or the record is refused.
    pub fn check(&self) -> Result<(), BookFault>
        ensures { result ≡ answer (basic_refusal self.now) tt }
    {
        if self.in_limits() {
            Ok(())
        } else {
            Err(BookFault::BasicField)
        }
    }

    // Whether every field lies in its limits.
    fn in_limits(&self) -> bool
        ensures { result ≡ basic_in self.now }
    {
        self.mass <= 500_000
            && (-4_000_000_000..=4_000_000_000).contains(&self.moment)
            && arm_in(self.tip_arm)
            && self.allowance <= 100_000
    }

    // Whether these totals keep the aircraft on its nose wheel: the moment is at most the tip arm times the mass.
    pub fn keeps_tip(&self, totals: Totals) -> bool
        ensures value { result ≡ tip_kept self.now totals }
        ensures means { Decides result (TipKept self.now totals) }
    {
        at_most(
            totals.moment,
            product(i128::from(self.tip_arm), i128::from(totals.mass)),
        )
    }
}
