// Polygons that are or are not an envelope, and points at its edge.
use crate::refusal::Refusal;
use book::{Envelope, Vertex};
use std::io;

// A five-pointed star drawn in one stroke: it turns left at every corner.
const STAR: [(i64, i64); 5] = [
    (1_000, 1_000),
    (412, -809),
    (1_951, 309),
    (49, 309),
    (1_588, -809),
];

const WORKED: [(i64, i64); 4] = [
    (2_000, -100_000),
    (5_000, -100_000),
    (5_000, 400_000),
    (2_000, 250_000),
];

// On an edge, just off it, at a vertex, and far away.
const POINTS: [(i64, i64); 7] = [
    (4_400, 120_000),
    (3_000, 300_000),
    (3_000, 300_001),
    (2_000, -100_000),
    (1_999, 0),
    (i64::MAX, i64::MIN),
    (i64::MIN, i64::MAX),
];

// The vertex with this mass and this moment. No `From`: neither type is of this crate.
fn vertex((mass, moment): (i64, i64)) -> Vertex {
    Vertex { mass, moment }
}

// On which side of the line from `a` to `b` the point lies, in wide numbers: the cases' own, so that the library is not
// tested by itself.
fn side(a: Vertex, b: Vertex, p: Vertex) -> i128 {
    let past = |x: i64, y: i64| i128::from(x).saturating_sub(i128::from(y));
    let left = past(b.mass, a.mass).saturating_mul(past(p.moment, a.moment));
    let right = past(b.moment, a.moment).saturating_mul(past(p.mass, a.mass));
    left.saturating_sub(right)
}

// Whether a path of five vertices turns left at each corner, neighbours alone compared.
fn turns_left([a, b, c, d, e]: [Vertex; 5]) -> bool {
    [a, b, c, d, e, a, b].windows(3).all(
        |corner| matches!(corner, [p, q, r] if side(*p, *q, *r) > 0),
    )
}

fn print_envelope(rt: &HostRuntime, name: &str, vs: &[Vertex]) -> io::Result<()> {
    match Envelope::new(vs) {
        Ok(envelope) => println!(rt;
            "{name}: an envelope of {} vertices",
            envelope.vertices().len()
        ),
        Err(fault) => println!(rt; "{name}: {}", Refusal(fault)),
    }
}

fn print_points(rt: &HostRuntime, star: &[Vertex], worked: &[Vertex]) -> io::Result<()> {
    let Ok(mut envelope) = Envelope::new(worked) else {
        return println!(rt; "the worked polygon is no envelope");
    };
    let refused = envelope.replace(star).is_err();
    let kept = envelope.vertices().len();
    println!(rt; "star refused as a replacement: {refused}, vertices kept: {kept}")?;
    for (mass, moment) in POINTS {
        println!(rt;
            "({mass}, {moment}) inside: {}",
            envelope.inside(mass, moment)
        )?;
    }
    Ok(())
}

pub(crate) fn run(rt: &HostRuntime) -> io::Result<()> {
    let star = STAR.map(vertex);
    let worked = WORKED.map(vertex);
    let [a, b, c, d] = worked;
    println!(rt; "star turns left at each corner: {}", turns_left(star))?;
    let edge = vertex((3_500, -100_000));
    let far = vertex((1_000_001, 0));
    let polygons: [(&str, &[Vertex]); 8] = [
        ("star", &star),
        ("worked", &worked),
        ("clockwise", &[d, c, b, a]),
        ("two vertices", &[a, b]),
        ("triangle", &[a, b, c]),
        ("seventeen vertices", &[a; 17]),
        ("a vertex on an edge", &[a, edge, b, c]),
        ("third vertex too heavy", &[a, b, far]),
    ];
    for (name, vs) in polygons {
        print_envelope(rt, name, vs)?;
    }
    print_points(rt, &star, &worked)
}
