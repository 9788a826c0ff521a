ghost use Rattle.std.specs.Prelude.{◌≤◌, take};
ghost use Rattle.book.specs.Polygons.{IsEnvelope};

use crate::vertex::Vertex;

// The polygon in which trim is kept. Every envelope that exists has 3 to 16 vertices in their limits,
// each strictly left of every edge that is not its own. It holds its vertices itself, so that making one never
// fails for want of memory; those past the count are unused. An array and a count, since an envelope is `Copy`
// and an `ArrayVec` is not. No model: a view of a `Copy` type may forget nothing, and the unused would have to stay 0;
// and no derived `==`, which would compare them.
#[derive(Clone, Copy)]
pub struct Envelope {
    pub(crate) vertices: [Vertex; 16],
    pub(crate) count: usize,
    ghost most: { count ≤ 16 },
    ghost sound: { IsEnvelope (take count vertices) },
}
