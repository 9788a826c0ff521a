ghost use Rattle.std.specs.Prelude.{◌≡◌, ℕ, ◌+◌, ◌<◌, ◌≤◌};
ghost use Rattle.book.specs.declared.station.Station.{Station};
ghost use Rattle.book.specs.Fields.{Lawful};

use book::Station;

// A kind of summary. Its values read as something over whole numbers, and every promise is about the
// readings. Nothing is required of a caller: on values or records that stand for nothing, each function
// still ends safely, and its result is free.
pub trait Kind: Copy {
    type Reading;

    // What a value reads as.
    ghost reading: { Self → Self.Reading };

    // What no station reads as.
    ghost none: { Self.Reading };

    // What one station reads as, by its number and record.
    ghost single: { ℕ → Station → Self.Reading };

    // Two readings joined, the forward one first.
    ghost joined: { Self.Reading → Self.Reading → Self.Reading };

    // Which values may stand for so many stations, 0 to 256.
    ghost stands: { Self → ℕ → Type 0 };

    fn empty() -> Self
        ensures { (reading result ≡ none) × (stands result 0) };

    fn station(number: usize, given: &Station) -> Self
        ensures { Lawful given.now → number < 256 → (reading result ≡ single number given.now) × stands result 1 };

    fn join(self, aft: Self) -> Self
        ensures { (j k : ℕ) → stands self j → stands aft k → j + k ≤ 256 → (reading result ≡ joined (reading self) (reading aft)) × stands result (j + k) };

    ghost left: { (x : Self.Reading) → joined none x ≡ x };

    ghost right: { (x : Self.Reading) → joined x none ≡ x };

    ghost assoc: { (x y z : Self.Reading) → joined (joined x y) z ≡ joined x (joined y z) };
}
