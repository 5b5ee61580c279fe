// Whether the numbers of an edit are in their ranges, and the number of an edge that is.
ghost use Rattle.std.specs.Prelude.{◌≡◌, ◌+◌, ◌*◌, ◌<◌, ◌&&◌, IsTrue};
ghost use Rattle.boundary.specs.Operators.{named};
ghost use Rattle.solid.specs.Places.{place_of};
ghost use Rattle.boundary.specs.Refusals.{below, is_face, is_half, is_loop, is_edge, is_vertex, is_coordinate, is_point, is_place, in_range};

use boundary::{EDGES, Edit, FACES, HALF_EDGES, LOOPS, Point, SHELLS, VERTICES, named};

// A place from here on is the loop that far below it, and one before it is a half-edge.
const LOOP_PLACES: u16 = 512;

// What a place names; a loop that is one must have a lone vertex.
#[derive(Clone, Copy)]
pub(crate) enum Place {
    HalfEdge(u16),
    Loop(u16),
}

impl Place {
    pub(crate) fn of(number: u16) -> Place
        ensures { result ≡ place_of number }
    {
        if number < LOOP_PLACES {
            Place::HalfEdge(number)
        } else {
            Place::Loop(number - LOOP_PLACES)
        }
    }
}

// The number of an edge, small enough that its half-edges have numbers too.
#[derive(Clone, Copy)]
pub(crate) struct EdgeNumber {
    pub(crate) number: u16,
    ghost in_range: { number < 192 },
}

impl EdgeNumber {
    // The edge that a field in range names.
    pub(crate) fn named(field: i32) -> EdgeNumber
        requires { IsTrue (is_edge field) }
        ensures { result.number ≡ named field }
    {
        EdgeNumber {
            number: named(field),
        }
    }

    pub(crate) fn even(self) -> u16
        ensures { result ≡ 2 * self.number }
    {
        2 * self.number
    }

    pub(crate) fn odd(self) -> u16
        ensures { result ≡ 2 * self.number + 1 }
    {
        2 * self.number + 1
    }
}

fn below(field: i32, count: usize) -> bool
    ensures { result ≡ below count field }
{
    usize::try_from(field).is_ok_and(|k| k < count)
}

fn is_half(field: i32) -> bool
    ensures { result ≡ is_half field }
{
    (0..i32::from(HALF_EDGES)).contains(&field)
}

fn is_place(field: i32) -> bool
    ensures { result ≡ is_place field }
{
    let loops = i32::from(LOOP_PLACES);
    is_half(field) || (loops..loops + LOOPS as i32).contains(&field)
}

fn is_coordinate(x: i32) -> bool
    ensures { result ≡ is_coordinate x }
{
    (-8_388_608..=8_388_607).contains(&x)
}

fn is_point(at: Point) -> bool
    ensures { result ≡ is_point at }
{
    is_coordinate(at.x) && is_coordinate(at.y) && is_coordinate(at.z)
}

// A face with its outer loop.
fn is_face(face: i32, outer: i32) -> bool
    ensures { result ≡ (is_face face && is_loop outer) }
{
    below(face, FACES) && below(outer, LOOPS)
}

// A vertex with the point that it is at.
fn is_vertex(vertex: i32, at: Point) -> bool
    ensures { result ≡ (is_vertex vertex && is_point at) }
{
    below(vertex, VERTICES) && is_point(at)
}

pub(crate) fn in_range(edit: Edit) -> bool
    ensures { result ≡ in_range edit }
{
    match edit {
        Edit::Mvfs {
            shell,
            face,
            outer,
            vertex,
            at,
        } => below(shell, SHELLS) && is_face(face, outer) && is_vertex(vertex, at),
        Edit::Kvfs { shell } => below(shell, SHELLS),
        Edit::Mev {
            place,
            edge,
            vertex,
            at,
        } => is_place(place) && below(edge, EDGES) && is_vertex(vertex, at),
        Edit::Kev { half } => is_half(half),
        Edit::Mef {
            from,
            to,
            edge,
            face,
            outer,
        } => { is_half(from) && is_half(to) && below(edge, EDGES) && is_face(face, outer) }
        Edit::Kef { half } => is_half(half),
        Edit::Kemr { half, inner } => is_half(half) && below(inner, LOOPS),
        Edit::Mekr { to, inner, edge } => is_place(to) && is_place(inner) && below(edge, EDGES),
        Edit::Kfmrh { kept, killed } => below(kept, FACES) && below(killed, FACES),
        Edit::Move { vertex, at } => is_vertex(vertex, at),
    }
}
