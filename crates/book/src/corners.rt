ghost use Rattle.std.specs.Prelude.{◌≡◌, ◌<◌, length, pos, Decides, int_le};
ghost use Rattle.book.specs.Polygons.{after as after_of, edge, every, left_of, convex, within, Within, AllIn};

use crate::turn::turn;
use crate::vertex::Vertex;

// The corners of a polygon in order round it, each in its limits, so that no turn overflows.
#[derive(Clone, Copy)]
pub(crate) struct Corners<'a> {
    pub(crate) vertices: &'a [Vertex],
    ghost all_in: { AllIn vertices.now },
}

// The place after `i`, of `n` in a ring.
fn after(n: usize, i: usize) -> usize
    requires { i < n }
    ensures which { result ≡ after_of n i }
    ensures bound { result < n }
{
    if i + 1 == n { 0 } else { i + 1 }
}

// An edge is given by the place where it begins: a type of its own would need the same bound shown anew in each
// closure.
impl Corners<'_> {
    // On which side of the edge that begins at corner `i` the point lies: above 0 to its left, 0 on it.
    fn side(&self, i: usize, p: &Vertex) -> i128
        requires { i < length self.now.vertices.now }
        ensures { result ≡ edge self.now.vertices.now i p.now }
    {
        let j = after(self.vertices.len(), i);
        turn(&self.vertices[i], &self.vertices[j], p)
    }

    // Whether corner `k` is one of the edge that begins at corner `i`, or lies strictly left of it.
    fn strictly_left(&self, i: usize, k: usize) -> bool
        requires edge { i < length self.now.vertices.now }
        requires corner { k < length self.now.vertices.now }
        ensures { result ≡ left_of self.now.vertices.now i k }
    {
        let j = after(self.vertices.len(), i);
        k == i || k == j || self.side(i, &self.vertices[k]) > 0
    }

    // Whether the point lies on the edge that begins at corner `i`, or left of it.
    fn on_or_left(&self, i: usize, p: &Vertex) -> bool
        requires { i < length self.now.vertices.now }
        ensures { result ≡ int_le (pos 0) (edge self.now.vertices.now i p.now) }
    {
        self.side(i, p) >= 0
    }

    // Whether every corner but the edge's own lies strictly left of the edge that begins at corner `i`.
    fn all_left(&self, i: usize) -> bool
        requires { i < length self.now.vertices.now }
        ensures { result ≡ every (length self.now.vertices.now) (left_of self.now.vertices.now i) }
    {
        (0..self.vertices.len()).all(|k| self.strictly_left(i, k))
    }

    // Whether that holds of every edge. Neighbouring corners alone would let a star pass.
    pub(crate) fn are_convex(&self) -> bool
        ensures { result ≡ convex self.now.vertices.now }
    {
        (0..self.vertices.len()).all(|i| self.all_left(i))
    }

    // Whether the point lies on or left of each edge.
    pub(crate) fn surround(&self, p: &Vertex) -> bool
        ensures value { result ≡ within self.now.vertices.now p.now }
        ensures means { Decides result (Within self.now.vertices.now p.now) }
    {
        (0..self.vertices.len()).all(|i| self.on_or_left(i, p))
    }
}
