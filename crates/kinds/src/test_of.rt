ghost use Rattle.std.specs.Prelude.{◌≡◌, ℕ, ◌≤◌, Bool};
ghost use Rattle.kinds.specs.Folds.{StaysMet};

use crate::kind::Kind;

// A test of a summary, on the one kind that it reads. Its law: if a reading of lawful stations meets it, so
// does that reading joined with any lawful stations aft.
pub trait Test {
    type Read;

    type Of: Kind<Reading = Self::Read>;

    ghost meets: { Self → Self.Read → Bool };

    fn met(&self, value: Self::Of) -> bool
        ensures answers { (k : ℕ) → k ≤ 256 → Self.Of.Kind.stands value k → result ≡ meets self.now (Self.Of.Kind.reading value) }
        ensures keeps { StaysMet Self.Of.Kind (meets self.now) };
}
