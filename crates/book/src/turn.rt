ghost use Rattle.std.specs.Prelude.{◌≡◌, ◌^◌, true, ◌-ℤ◌, ◌*ℤ◌};
ghost use Rattle.book.specs.Fields.{vertex_in};
ghost use Rattle.book.specs.Polygons.{turn as turn_of};
ghost use Rattle.book.specs.Spans.{Span};

use crate::vertex::Vertex;

// The product of a number of at most 2^36 and one of at most 2^66 either way: it cannot overflow.
pub(crate) fn product(x: i128, y: i128) -> i128
    requires { (Span x (2 ^ 36)) × (Span y (2 ^ 66)) }
    ensures value { result ≡ x *ℤ y }
    ensures small { Span result (2 ^ 102) }
{
    x * y
}

// How far the first number lies past the second: it cannot overflow either.
fn past(x: i64, y: i64) -> i128
    ensures value { result ≡ x -ℤ y }
    ensures small { Span result (2 ^ 66) }
{
    i128::from(x) - i128::from(y)
}

// On which side of the line from `a` to `b` the point lies: above 0 to its left, 0 on it. The ends are
// in their limits, the point may be any.
pub(crate) fn turn(a: &Vertex, b: &Vertex, p: &Vertex) -> i128
    requires { (vertex_in a.now ≡ true) × (vertex_in b.now ≡ true) }
    ensures { result ≡ turn_of a.now b.now p.now }
{
    product(past(b.mass, a.mass), past(p.moment, a.moment))
        - product(past(b.moment, a.moment), past(p.mass, a.mass))
}
