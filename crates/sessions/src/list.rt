// The list of calls: several sessions, refused edits, an abandoned batch, commits that the power cuts, and losses.
use boundary::{Edit, Point};
use runs::Call;

// How many calls the list has.
pub const LENGTH: usize = 63;

// A shell, its face, the outer loop of that and on it a lone vertex.
const POINT: Call = Call::Apply(Edit::Mvfs {
    shell: 0,
    face: 0,
    outer: 0,
    vertex: 0,
    at: Point { x: 0, y: 0, z: 0 },
});

const FIRST_EDGE: Call = Call::Apply(Edit::Mev {
    place: 512,
    edge: 0,
    vertex: 1,
    at: Point { x: 256, y: 0, z: 0 },
});

const SECOND_EDGE: Call = Call::Apply(Edit::Mev {
    place: 1,
    edge: 1,
    vertex: 2,
    at: Point {
        x: 256,
        y: 256,
        z: 0,
    },
});

// The third edge, which closes the triangle.
const THIRD_EDGE: Call = Call::Apply(Edit::Mef {
    from: 0,
    to: 3,
    edge: 2,
    face: 1,
    outer: 1,
});

// An edge from a half-edge to itself, which is refused.
const NO_EDGE: Call = Call::Apply(Edit::Mef {
    from: 0,
    to: 0,
    edge: 3,
    face: 2,
    outer: 2,
});

// A handle: the second face of the triangle becomes a ring of the first.
const HANDLE: Call = Call::Apply(Edit::Kfmrh { kept: 0, killed: 1 });

// A vertex goes to a place on the x axis.
macro_rules! moved {
    ($vertex:literal, $x:literal) => {
        Call::Apply(Edit::Move {
            vertex: $vertex,
            at: Point { x: $x, y: 0, z: 0 },
        })
    };
}

// The calls, in their order.
pub const CALLS: [Call; LENGTH] = [
    Call::Begin,
    Call::Open,
    Call::Commit,
    Call::Begin,
    Call::Commit,
    Call::Begin,
    POINT,
    POINT,
    FIRST_EDGE,
    SECOND_EDGE,
    THIRD_EDGE,
    NO_EDGE,
    moved!(0, 8_388_608),
    Call::Open,
    Call::Commit,
    Call::Begin,
    HANDLE,
    Call::Abandon,
    Call::Begin,
    moved!(2, 8_388_607),
    Call::Close,
    Call::Lose,
    Call::Open,
    Call::Begin,
    moved!(2, 8_388_607),
    Call::Commit,
    Call::Begin,
    HANDLE,
    Call::Commit,
    Call::Close,
    Call::Open,
    Call::Lose,
    Call::Open,
    Call::Begin,
    HANDLE,
    Call::Commit,
    Call::Lose,
    Call::Open,
    Call::Lose,
    Call::Open,
    Call::Begin,
    HANDLE,
    Call::Commit,
    Call::Lose,
    Call::Open,
    Call::Begin,
    HANDLE,
    Call::Commit,
    Call::Begin,
    moved!(0, 1),
    moved!(0, 2),
    moved!(0, 3),
    moved!(0, 4),
    moved!(0, 5),
    moved!(0, 6),
    moved!(0, 7),
    Call::Commit,
    Call::Begin,
    moved!(9, 0),
    Call::Abandon,
    Call::Close,
    Call::Open,
    Call::Close,
];
