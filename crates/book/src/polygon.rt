ghost use Rattle.std.specs.Prelude.{◌≡◌, Decides, MatchResult};
ghost use Rattle.book.specs.Envelopes.{polygon, polygon_in, IsEnvelope};
ghost use Rattle.book.specs.Polygons.{within, Within};
ghost use Rattle.book.specs.Refusals.{answer, vertex_refusal};

use crate::corners::Corners;
use crate::envelope::Envelope;
use crate::fault::BookFault;
use crate::rule::check_each;
use crate::vertex::Vertex;

// How many vertices, then each vertex, then the property of them all.
fn check_vertices(given: &[Vertex]) -> Result<(), BookFault>
    ensures { result ≡ answer (vertex_refusal given.now) tt }
{
    if !(3..=16).contains(&given.len()) {
        return Err(BookFault::VertexCount);
    }
    check_each(given, Vertex::in_limits, |vertex| {
        BookFault::VertexField { vertex }
    })?;
    if (Corners { vertices: given }).are_convex() {
        Ok(())
    } else {
        Err(BookFault::NotConvex)
    }
}

// An envelope with these vertices, which are known to be one.
fn holding(given: &[Vertex]) -> Envelope
    requires { IsEnvelope given.now }
    ensures { polygon result ≡ given.now }
{
    let mut vertices = [Vertex { mass: 0, moment: 0 }; 16];
    vertices[..given.len()].copy_from_slice(given);
    Envelope {
        vertices,
        count: given.len(),
    }
}

impl Envelope {
    // The envelope with these vertices, or why they are none.
    pub fn new(given: &[Vertex]) -> Result<Envelope, BookFault>
        ensures value { polygon_in result ≡ answer (vertex_refusal given.now) given.now }
        ensures exactly { MatchResult result (λ _. IsEnvelope given.now) (λ _. IsEnvelope given.now → ⊥) }
    {
        check_vertices(given)?;
        Ok(holding(given))
    }

    // Puts another envelope in this one's place, or leaves it as it is.
    pub fn replace(&mut self, given: &[Vertex]) -> Result<(), BookFault>
        ensures value { result ≡ answer (vertex_refusal given.now) tt }
        ensures after { MatchResult result (λ _. polygon self.new ≡ given.now) (λ _. self.new ≡ self.old) }
    {
        *self = Envelope::new(given)?;
        Ok(())
    }

    // The vertices in order.
    pub fn vertices(&self) -> &[Vertex]
        ensures value { result.now ≡ polygon self.now }
        ensures sound { IsEnvelope (polygon self.now) }
    {
        &self.vertices[..self.count]
    }

    // Whether trim is kept at this mass and moment: the point lies on or left of each edge.
    pub fn inside(&self, mass: i64, moment: i64) -> bool
        ensures value { result ≡ within (polygon self.now) (record { mass = mass; moment = moment }) }
        ensures means { Decides result (Within (polygon self.now) (record { mass = mass; moment = moment })) }
    {
        let corners = Corners {
            vertices: self.vertices(),
        };
        corners.surround(&Vertex { mass, moment })
    }
}
