// The half-edge boundary of a solid: its rows, the edits that change it and the numbers by which an edit is refused.
#![tactic(auto)]

ghost use Rattle.std.specs.Prelude.{◌≡◌};
ghost use Rattle.boundary.specs.Operators.{empty, named};
ghost use Rattle.boundary.specs.Refusals.{code};
ghost use Rattle.boundary.specs.Tables.{row, half_in};

pub const SHELLS: usize = 8;

pub const FACES: usize = 96;

pub const LOOPS: usize = 96;

pub const EDGES: usize = 192;

// Two of each edge.
pub const HALF_EDGES: u16 = 2 * EDGES as u16;

pub const VERTICES: usize = 128;

// A point in whole 1/256 mm.
#[derive(Clone, Copy, PartialEq, Eq, Debug)]
pub struct Point {
    pub x: i32,
    pub y: i32,
    pub z: i32,
}

// The vertex that a half-edge starts at, the half-edge after it in its ring, and the loop that it lies on.
#[derive(Clone, Copy, Default)]
pub struct HalfEdge {
    pub start: u16,
    pub next: u16,
    pub owner: u16,
}

// Edge k owns the half-edges 2k (even) and 2k + 1 (odd), which are mates.
#[derive(Clone, Copy)]
pub struct Edge {
    pub even: HalfEdge,
    pub odd: HalfEdge,
}

// A loop lies in a face, and has a lone vertex where it has no half-edge.
#[derive(Clone, Copy)]
pub struct Loop {
    pub face: u16,
    pub lone: Option<u16>,
}

#[derive(Clone, Copy)]
pub struct Face {
    pub shell: u16,
    pub outer: u16,
}

#[derive(Clone, Copy)]
pub struct Shell;

// A row that is `None` is unused. `handles` counts the handles made so far.
#[derive(Clone, Copy)]
pub struct Boundary {
    pub shells: [Option<Shell>; SHELLS],
    pub faces: [Option<Face>; FACES],
    pub loops: [Option<Loop>; LOOPS],
    pub edges: [Option<Edge>; EDGES],
    pub vertices: [Option<Point>; VERTICES],
    pub handles: u32,
}

// An edit as it is asked for: its numbers may lie outside every range.
// A place is a half-edge, 0 to 383, or the loop 512 below it, 512 to 607.
#[derive(Clone, Copy)]
pub enum Edit {
    // makes a shell, a face, its outer loop and on that a lone vertex
    Mvfs {
        shell: i32,
        face: i32,
        outer: i32,
        vertex: i32,
        at: Point,
    },
    // takes a shell away that has no more than mvfs makes
    Kvfs {
        shell: i32,
    },
    // makes an edge from a place to a new vertex
    Mev {
        place: i32,
        edge: i32,
        vertex: i32,
        at: Point,
    },
    // takes an edge away, and the vertex at its end
    Kev {
        half: i32,
    },
    // makes an edge between two half-edges of a loop, which splits off a face and its outer loop
    Mef {
        from: i32,
        to: i32,
        edge: i32,
        face: i32,
        outer: i32,
    },
    // takes an edge between two loops away, and the face on its own side
    Kef {
        half: i32,
    },
    // takes an edge away, which splits an inner loop off
    Kemr {
        half: i32,
        inner: i32,
    },
    // makes an edge between two loops of a face, which joins the inner one to the other
    Mekr {
        to: i32,
        inner: i32,
        edge: i32,
    },
    // makes the one loop of a face an inner loop of another face
    Kfmrh {
        kept: i32,
        killed: i32,
    },
    // gives a vertex another place in space
    Move {
        vertex: i32,
        at: Point,
    },
}

// Why an edit is refused, with the number by which a user is told of it.
#[derive(Clone, Copy, PartialEq, Eq, Debug)]
pub enum Refusal {
    // a number or a coordinate out of its range
    OutOfRange = 1,
    // it makes something used
    Taken = 2,
    // it names something unused
    Unused = 3,
    // it breaks the operator's condition
    Condition = 4,
}

impl Refusal {
    pub fn number(self) -> u8
        ensures { result ≡ code self }
    {
        self as u8
    }
}

// A row of a table; there is none past its end.
pub fn row<T: Copy>(rows: &[Option<T>], k: u16) -> Option<T>
    ensures { result ≡ row rows.now k }
{
    rows.get(k as usize).copied().flatten()
}

// The half-edge `h` of a table of edges; an unused one reads as zeros.
pub fn half(edges: &[Option<Edge>], h: u16) -> HalfEdge
    ensures { result ≡ half_in edges.now h }
{
    match row(edges, h / 2) {
        Some(edge) if h % 2 == 0 => edge.even,
        Some(edge) => edge.odd,
        None => HalfEdge::default(),
    }
}

// The number that a field of an edit names; one that no table is long enough for names 0.
pub fn named(field: i32) -> u16
    ensures { result ≡ named field }
{
    u16::try_from(field).unwrap_or(0)
}

impl Boundary {
    // No row is used.
    pub fn empty() -> Boundary
        ensures { result ≡ empty }
    {
        Boundary {
            shells: [None; SHELLS],
            faces: [None; FACES],
            loops: [None; LOOPS],
            edges: [None; EDGES],
            vertices: [None; VERTICES],
            handles: 0,
        }
    }
}
