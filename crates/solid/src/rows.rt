// What the operators do to tables of rows.
ghost use Rattle.std.specs.Prelude.{◌≡◌, map, if◌then◌else◌, nat_eq, slice_set};
ghost use Rattle.std.specs.Option.{option_map};
ghost use Rattle.boundary.specs.Changes.{owned_side, owned_one, owned_in};
ghost use Rattle.boundary.specs.Operators.{edge};
ghost use Rattle.boundary.specs.declared.HalfEdge.{HalfEdge};
ghost use Rattle.boundary.specs.Tables.{used, mate, next_in, run};

use boundary::{Edge, HALF_EDGES, HalfEdge, half, row};

// The other half of the edge of `h`.
pub(crate) fn mate(h: u16) -> u16
    ensures { result ≡ mate h }
{
    h ^ 1
}

// Whether a row is used.
pub(crate) fn used<T: Copy>(rows: &[Option<T>], k: u16) -> bool
    ensures { result ≡ used rows.now k }
{
    row(rows, k).is_some()
}

// The row becomes `to`; there is none past the end of a table.
pub(crate) fn set<T: Copy>(rows: &mut [Option<T>], k: u16, to: Option<T>)
    ensures { rows.new ≡ slice_set rows.old k to }
{
    if (k as usize) < rows.len() {
        rows[k as usize] = to;
    }
}

// Each used row is changed by `change`.
pub(crate) fn change_all<T: Copy, F: Fn(T) -> T>(rows: &mut [Option<T>], change: F)
    requires { F.IsAlwaysCallable change }
    ensures { (f : T → T) → ((x y : T) → F.post change x y → y ≡ f x) → rows.new ≡ map (option_map f) rows.old }
{
    for row in rows.iter_mut() {
        if let Some(found) = row {
            *found = change(*found);
        }
    }
}

// Each half of each used edge is changed by `change`.
pub(crate) fn change_halves<F: Fn(HalfEdge) -> HalfEdge>(edges: &mut [Option<Edge>], change: F)
    requires { F.IsAlwaysCallable change }
    ensures { (f : HalfEdge → HalfEdge) → ((x y : HalfEdge) → F.post change x y → y ≡ f x) → edges.new ≡ map (option_map (λ e. edge (f e.even) (f e.odd))) edges.old }
{
    change_all(
        edges,
        |edge| Edge {
            even: change(edge.even),
            odd: change(edge.odd),
        },
    );
}

// `to` in the place of `from`.
pub(crate) fn replaced(x: u16, from: u16, to: u16) -> u16
    ensures { result ≡ (if nat_eq x from then to else x) }
{
    if x == from { to } else { x }
}

// One half of an edge lies on the loop `l`.
fn owned_side(mut edge: Edge, even: bool, l: u16) -> Edge
    ensures { result ≡ owned_side even l edge }
{
    if even {
        edge.even.owner = l;
    } else {
        edge.odd.owner = l;
    }
    edge
}

// The half-edge `h` lies on the loop `l`.
fn own(edges: &mut [Option<Edge>], h: u16, l: u16)
    ensures { edges.new ≡ owned_one edges.old h l }
{
    let owned = row(edges, h / 2).map(|edge| owned_side(edge, h % 2 == 0, l));
    set(edges, h / 2, owned);
}

// The run from `from` to just before `to` lies on the loop `l`.
pub(crate) fn own_run(edges: &mut [Option<Edge>], from: u16, to: u16, l: u16)
    ensures { edges.new ≡ owned_in edges.old (run (next_in edges.old) 384 from to) l }
{
    let mut h = from;
    for _ in 0..HALF_EDGES {
        if h == to {
            return;
        }
        own(edges, h, l);
        h = half(edges, h).next;
    }
}
