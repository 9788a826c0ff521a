ghost use Rattle.std.specs.Prelude.{◌≡◌, ℕ, ◌≤◌};
ghost use Rattle.book.specs.declared.station.Station.{Station};
ghost use Rattle.kinds.specs.declared.house.House.{House};
ghost use Rattle.kinds.specs.Houses.{no_house, one_house, both_houses};

use crate::beside::Beside;
use crate::house::House;
use crate::kind::Kind;

// A kind that also reads as a house summary and can give it. That reading takes empty to empty, a station
// to its house reading and a joining to the joining.
pub trait Judged: Kind {
    ghost house: { Self.Reading → House };

    fn house(self) -> House
        ensures reads { (k : ℕ) → k ≤ 256 → Self.Kind.stands self k → result ≡ house (Self.Kind.reading self) }
        ensures none { house Self.Kind.none ≡ no_house }
        ensures single { (n : ℕ) (s : Station) → house (Self.Kind.single n s) ≡ one_house n s }
        ensures joined { (x y : Self.Reading) → house (Self.Kind.joined x y) ≡ both_houses (house x) (house y) };
}

impl Judged for House {
    ghost house = { λ x. x };

    fn house(self) -> House {
        self
    }
}

impl<X: Judged, Y: Kind> Judged for Beside<X, Y> {
    ghost house = { λ x. X.Judged.house x.0 };

    fn house(self) -> House {
        self.one.house()
    }
}
