ghost use Rattle.kinds.specs.Tests.{below_zero};

use crate::house::House;
use crate::test_of::Test;

// On the house summary: a fore margin is below 0.
#[derive(Clone, Copy, Debug, PartialEq, Eq)]
pub struct ForeBroken;

impl Test for ForeBroken {
    type Read = House;

    type Of = House;

    ghost meets = { λ _ x. below_zero x.load.fore };

    fn met(&self, value: House) -> bool {
        value.load.fore.is_some_and(|margin| margin < 0)
    }
}
