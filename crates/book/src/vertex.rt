ghost use Rattle.std.specs.Prelude.{◌≡◌};
ghost use Rattle.book.specs.Fields.{vertex_in};

// A corner of the envelope, or the point that is held against it: any mass and moment, and no sum over records.
#[derive(Clone, Copy, Debug, PartialEq, Eq)]
pub struct Vertex {
    pub mass: i64,
    pub moment: i64,
}

impl Vertex {
    // Whether it may be a corner.
    pub(crate) fn in_limits(&self) -> bool
        ensures { result ≡ vertex_in self.now }
    {
        (0..=1_000_000).contains(&self.mass)
            && (-10_000_000_000..=10_000_000_000).contains(&self.moment)
    }
}
