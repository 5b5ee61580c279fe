// A boundary as text: a line of its counts, and then a line for each used row.
#![tactic(auto)]

ghost use Rattle.std.specs.Prelude.{◌≡◌, ℕ, List, map, Some, IfOk, string_bytes, decimal};
ghost use Rattle.std.specs.Fmt.{WritesOnOk};
ghost use Rattle.boundary.specs.declared.Boundary.{Boundary};
ghost use Rattle.boundary.specs.Tables.{count};
ghost use Rattle.listing.specs.Listing.{spaced, counted, counts_text, vertex_line, edge_line, face_line, loop_line, lies_on, smallest, ring, place, row_line, lines, listed};

use boundary::{Boundary, Edge, Face, HALF_EDGES, Loop, Point, half, row};
use std::alloc::{AllocError, Global};
use std::fmt::{self, Display, Formatter, Write};

// How many rows of each table are used, and the handles.
#[derive(Clone, Copy)]
pub struct Counts {
    pub vertices: usize,
    pub edges: usize,
    pub faces: usize,
    pub loops: usize,
    pub shells: usize,
    pub handles: u32,
}

// The line of the counts, but for its line feed.
impl Display for Counts {
    ghost output = { λ n. Some (counts_text n) };

    fn fmt<W: Write>(&self, f: &mut Formatter<W>) -> fmt::Result {
        let Counts {
            vertices,
            edges,
            faces,
            loops,
            shells,
            handles,
        } = *self;
        write!(f, "c {vertices} {edges} {faces} {loops} {shells} {handles}")
    }
}

// The ring from the half-edge `start` on: each number after a space.
#[derive(Clone, Copy)]
struct Ring<'a> {
    boundary: &'a Boundary,
    start: u16,
}

impl Display for Ring<'_> {
    ghost output = { λ r. Some (spaced (map decimal (ring r.boundary.now r.start))) };

    fn fmt<W: Write>(&self, f: &mut Formatter<W>) -> fmt::Result {
        let Ring { boundary, start } = *self;
        write!(f, " {start}")?;
        let mut h = half(&boundary.edges, start).next;
        for _ in 1..HALF_EDGES {
            if h == start {
                break;
            }
            write!(f, " {h}")?;
            h = half(&boundary.edges, h).next;
        }
        Ok(())
    }
}

// Where the loop `l` lies: at its lone vertex, or else along its ring.
#[derive(Clone, Copy)]
struct Place<'a> {
    boundary: &'a Boundary,
    l: usize,
    lone: Option<u16>,
}

impl Display for Place<'_> {
    ghost output = { λ p. Some (spaced (place p.boundary.now p.l p.lone)) };

    fn fmt<W: Write>(&self, f: &mut Formatter<W>) -> fmt::Result {
        let Place { boundary, l, lone } = *self;
        if let Some(v) = lone {
            return write!(f, " v {v}");
        }
        match first_half(boundary, l) {
            Some(start) => write!(f, "{}", Ring { boundary, start }),
            None => Ok(()),
        }
    }
}

// A row of a table, which has a line of the listing.
trait Row: Sized {
    ghost text: { Boundary → ℕ → Self → List ℕ };

    // Writes the line of this row of `b`, whose number is `k`.
    fn write<W: Write>(&self, k: usize, b: &Boundary, f: &mut Formatter<W>) -> fmt::Result
        ensures { WritesOnOk W.write_str_gives f.old result (text b.now k self.now) f.new };
}

impl Row for Point {
    ghost text = { λ _. vertex_line };

    fn write<W: Write>(&self, k: usize, _b: &Boundary, f: &mut Formatter<W>) -> fmt::Result {
        let Point { x, y, z } = *self;
        writeln!(f, "v {k} {x} {y} {z}")
    }
}

impl Row for Edge {
    ghost text = { λ _. edge_line };

    fn write<W: Write>(&self, k: usize, _b: &Boundary, f: &mut Formatter<W>) -> fmt::Result {
        let even = self.even.start;
        let odd = self.odd.start;
        writeln!(f, "e {k} {even} {odd}")
    }
}

impl Row for Face {
    ghost text = { λ _. face_line };

    fn write<W: Write>(&self, k: usize, _b: &Boundary, f: &mut Formatter<W>) -> fmt::Result {
        let Face { shell, outer } = *self;
        writeln!(f, "f {k} {shell} {outer}")
    }
}

impl Row for Loop {
    ghost text = { loop_line };

    fn write<W: Write>(&self, k: usize, b: &Boundary, f: &mut Formatter<W>) -> fmt::Result {
        let Loop { face, lone } = *self;
        let place = Place {
            boundary: b,
            l: k,
            lone,
        };
        writeln!(f, "l {k} {face}{place}")
    }
}

// An unused row has no line.
impl<R: Row> Row for Option<R> {
    ghost text = { λ b. row_line (R.text b) };

    fn write<W: Write>(&self, k: usize, b: &Boundary, f: &mut Formatter<W>) -> fmt::Result {
        match self {
            Some(row) => row.write(k, b, f),
            None => Ok(()),
        }
    }
}

// The lines of the used rows of a table.
#[derive(Drop)]
struct Lines<'a, R> {
    boundary: &'a Boundary,
    rows: &'a [Option<R>],
}

impl<R: Row> Display for Lines<'_, R> {
    ghost output = { λ l. Some (lines (R.text l.boundary.now) l.rows.now) };

    fn fmt<W: Write>(&self, f: &mut Formatter<W>) -> fmt::Result {
        for (k, row) in self.rows.iter().enumerate() {
            row.write(k, self.boundary, f)?;
        }
        Ok(())
    }
}

// The whole listing.
#[derive(Clone, Copy)]
struct Listed<'a>(&'a Boundary);

impl Display for Listed<'_> {
    ghost output = { λ l. Some (listed l.0.now) };

    fn fmt<W: Write>(&self, f: &mut Formatter<W>) -> fmt::Result {
        let boundary = self.0;
        let counts = counted(boundary);
        let vertices = Lines {
            boundary,
            rows: &boundary.vertices,
        };
        let edges = Lines {
            boundary,
            rows: &boundary.edges,
        };
        let faces = Lines {
            boundary,
            rows: &boundary.faces,
        };
        let loops = Lines {
            boundary,
            rows: &boundary.loops,
        };
        write!(f, "{counts}\n{vertices}{edges}{faces}{loops}")
    }
}

// Whether the half-edge `h` is used and lies on the loop `l`.
fn lies_on(b: &Boundary, l: usize, h: u16) -> bool
    ensures { result ≡ lies_on b.now l h }
{
    row(&b.edges, h / 2).is_some() && half(&b.edges, h).owner as usize == l
}

// The smallest half-edge that is used and lies on the loop `l`.
fn first_half(b: &Boundary, l: usize) -> Option<u16>
    ensures { result ≡ smallest (lies_on b.now l) 384 0 }
{
    (0..HALF_EDGES).find(|h| lies_on(b, l, *h))
}

// How many rows are used.
fn used_rows<T>(rows: &[Option<T>]) -> usize
    ensures { result ≡ count rows.now }
{
    let mut n = 0;
    for row in rows {
        if row.is_some() {
            n += 1;
        }
    }
    n
}

// Counts what is used.
pub fn counted(b: &Boundary) -> Counts
    ensures { result ≡ counted b.now }
{
    Counts {
        vertices: used_rows(&b.vertices),
        edges: used_rows(&b.edges),
        faces: used_rows(&b.faces),
        loops: used_rows(&b.loops),
        shells: used_rows(&b.shells),
        handles: b.handles,
    }
}

// The boundary as text.
pub fn listing(heap: Global, b: &Boundary) -> Result<String, AllocError>
    ensures { IfOk result (λ t. string_bytes t ≡ listed b.now) }
{
    Listed(b).to_string(heap)
}

#[cfg(test)]
mod tests {
    use super::*;
    use std::test::Fail;

    // No row is used.
    #[test]
    fn counts_of_nothing(rt: HostRuntime) -> Result<(), Fail> {
        let counts = counted(&Boundary::empty()).to_string(rt.alloc())?;
        assert_eq!(rt; counts.as_str(), "c 0 0 0 0 0 0");
        Ok(())
    }

    // Each count has its own place in the line.
    #[test]
    fn counts_in_their_order(rt: HostRuntime) -> Result<(), Fail> {
        let mut b = Boundary::empty();
        b.vertices[127] = Some(Point { x: 1, y: 2, z: 3 });
        b.faces[0] = Some(Face { shell: 0, outer: 0 });
        b.faces[95] = Some(Face { shell: 0, outer: 1 });
        b.handles = 4_294_967_295;
        let counts = counted(&b).to_string(rt.alloc())?;
        assert_eq!(rt; counts.as_str(), "c 1 0 2 0 0 4294967295");
        Ok(())
    }
}
