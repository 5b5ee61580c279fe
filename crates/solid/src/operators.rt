// The operators. Each decides its refusal from numbers that are in range, and then makes its change.
ghost use Rattle.std.specs.Prelude.{◌≡◌, ◌+◌, ◌*◌, is_some, Some};
ghost use Rattle.std.specs.Option.{unwrap_or};
ghost use Rattle.std.specs.List.{position};
ghost use Rattle.boundary.specs.Changes.{put_lone, emptied, led, joined, inner, merged};
ghost use Rattle.boundary.specs.Operators.{edge, half_edge, mvfs, kvfs, face_in, mev, mev_before, mev_lone, kev, mef, past, spliced, kef, kemr, led_place, onward, mekr, connected, kfmrh, move};
ghost use Rattle.boundary.specs.Refusals.{mvfs_refusal, kvfs_refusal, mev_refusal, kev_refusal, mef_refusal, kef_refusal, kemr_refusal, mekr_refusal, kfmrh_refusal, move_refusal, place_used, has_vertex, are_joinable};
ghost use Rattle.boundary.specs.Tables.{row, half, half_used, lone, outer_of, loop_face, face_shell, place_loop, place_vertex, faces_in, loops_in, in_row, in_shell};
ghost use Rattle.solid.specs.Steps.{Decided};

use crate::Solid;
use crate::ranges::{EdgeNumber, Place};
use crate::rows::{change_all, change_halves, mate, own_run, replaced, set, used};
use boundary::{Edge, FACES, Face, HalfEdge, Loop, Point, Refusal, Shell, half, row};

impl Solid {
    fn half(&self, h: u16) -> HalfEdge
        ensures { result ≡ half self.now.boundary h }
    {
        half(&self.boundary.edges, h)
    }

    fn half_used(&self, h: u16) -> bool
        ensures { result ≡ half_used self.now.boundary h }
    {
        used(&self.boundary.edges, h / 2)
    }

    // The lone vertex of a loop.
    fn lone(&self, l: u16) -> Option<u16>
        ensures { result ≡ lone self.now.boundary l }
    {
        row(&self.boundary.loops, l).and_then(|found| found.lone)
    }

    // The face that a loop lies in.
    fn loop_face(&self, l: u16) -> u16
        ensures { result ≡ loop_face self.now.boundary l }
    {
        row(&self.boundary.loops, l).map_or(0, |found| found.face)
    }

    // The shell that a face lies in.
    fn face_shell(&self, f: u16) -> u16
        ensures { result ≡ face_shell self.now.boundary f }
    {
        row(&self.boundary.faces, f).map_or(0, |found| found.shell)
    }

    // The outer loop of a face.
    fn outer_of(&self, f: u16) -> u16
        ensures { result ≡ outer_of (row self.now.boundary.faces f) }
    {
        row(&self.boundary.faces, f).map_or(0, |found| found.outer)
    }

    // What led to `past` leads to `on`.
    fn lead(&mut self, past: u16, on: u16)
        ensures { self.new.boundary ≡ led self.old.boundary past on }
    {
        change_halves(
            &mut self.boundary.edges,
            |half| HalfEdge {
                next: replaced(half.next, past, on),
                ..half
            },
        );
    }

    // What lay on the loop `from` lies on the loop `to`.
    fn join(&mut self, from: u16, to: u16)
        ensures { self.new.boundary ≡ joined self.old.boundary from to }
    {
        change_halves(
            &mut self.boundary.edges,
            |half| HalfEdge {
                owner: replaced(half.owner, from, to),
                ..half
            },
        );
    }

    // The loops in the face `from` lie in the face `to`.
    fn take_in(&mut self, from: u16, to: u16)
        ensures { self.new.boundary ≡ inner self.old.boundary from to }
    {
        change_all(
            &mut self.boundary.loops,
            |row| Loop {
                face: replaced(row.face, from, to),
                ..row
            },
        );
    }

    // The faces in the shell `from` lie in the shell `to`.
    fn merge(&mut self, from: u16, to: u16)
        ensures { self.new.boundary ≡ merged self.old.boundary from to }
    {
        change_all(
            &mut self.boundary.faces,
            |face| Face {
                shell: replaced(face.shell, from, to),
                ..face
            },
        );
    }

    // What a place names is used.
    fn place_used(&self, place: u16) -> bool
        ensures { result ≡ place_used self.now.boundary place }
    {
        match Place::of(place) {
            Place::HalfEdge(h) => self.half_used(h),
            Place::Loop(l) => used(&self.boundary.loops, l),
        }
    }

    // The loop `l`, in its face, has this lone vertex or none.
    fn put_lone(&mut self, l: u16, lone: Option<u16>)
        ensures { self.new.boundary ≡ put_lone self.old.boundary l lone }
    {
        let face = self.loop_face(l);
        set(&mut self.boundary.loops, l, Some(Loop { face, lone }));
    }

    // Where the ring of the loop `l` was emptied, the vertex `v` is lone on it.
    fn leave_lone(&mut self, empty: bool, l: u16, v: u16)
        ensures { self.new.boundary ≡ emptied empty self.old.boundary l v }
    {
        if empty {
            self.put_lone(l, Some(v));
        }
    }

    pub(crate) fn mvfs(
        &mut self,
        shell: u16,
        face: u16,
        outer: u16,
        vertex: u16,
        at: Point,
    ) -> Result<(), Refusal>
        ensures { Decided (mvfs_refusal self.old.boundary shell face outer vertex) self.old.boundary (mvfs self.old.boundary shell face outer vertex at) result self.new.boundary }
    {
        if used(&self.boundary.shells, shell)
            || used(&self.boundary.faces, face)
            || used(&self.boundary.loops, outer)
            || used(&self.boundary.vertices, vertex)
        {
            return Err(Refusal::Taken);
        }
        set(&mut self.boundary.shells, shell, Some(Shell));
        set(&mut self.boundary.faces, face, Some(Face { shell, outer }));
        let lone = Some(vertex);
        set(&mut self.boundary.loops, outer, Some(Loop { face, lone }));
        set(&mut self.boundary.vertices, vertex, Some(at));
        Ok(())
    }

    // The first face of a shell, or the end of the table where it has none.
    fn face_in(&self, shell: u16) -> u16
        ensures { result ≡ face_in self.now.boundary shell }
    {
        first_face(&self.boundary.faces, shell).unwrap_or(FACES) as u16
    }

    // How many faces a shell has.
    fn faces_in(&self, shell: u16) -> usize
        ensures { result ≡ faces_in self.now.boundary shell }
    {
        self.boundary
            .faces
            .iter()
            .filter(|row| row.is_some_and(|face| face.shell == shell))
            .count()
    }

    // How many loops a face has.
    fn loops_in(&self, face: u16) -> usize
        ensures { result ≡ loops_in self.now.boundary face }
    {
        self.boundary
            .loops
            .iter()
            .filter(|row| row.is_some_and(|own| own.face == face))
            .count()
    }

    pub(crate) fn kvfs(&mut self, shell: u16) -> Result<(), Refusal>
        ensures { Decided (kvfs_refusal self.old.boundary shell) self.old.boundary (kvfs self.old.boundary shell) result self.new.boundary }
    {
        if !used(&self.boundary.shells, shell) {
            return Err(Refusal::Unused);
        }
        let face = self.face_in(shell);
        if self.faces_in(shell) != 1 || self.loops_in(face) != 1 {
            return Err(Refusal::Condition);
        }
        let outer = self.outer_of(face);
        let vertex = self.lone(outer).ok_or(Refusal::Condition)?;
        set(&mut self.boundary.shells, shell, None);
        set(&mut self.boundary.faces, face, None);
        set(&mut self.boundary.loops, outer, None);
        set(&mut self.boundary.vertices, vertex, None);
        Ok(())
    }

    // 2k and 2k + 1 go just before the half-edge `h`.
    fn mev_before(&mut self, h: u16, k: EdgeNumber, v: u16, p: Point)
        ensures { self.new.boundary ≡ mev_before self.old.boundary h k.number v p }
    {
        let HalfEdge { start, owner, .. } = self.half(h);
        self.lead(h, k.even());
        let even = HalfEdge {
            start,
            next: k.odd(),
            owner,
        };
        let odd = HalfEdge {
            start: v,
            next: h,
            owner,
        };
        set(&mut self.boundary.edges, k.number, Some(Edge { even, odd }));
        set(&mut self.boundary.vertices, v, Some(p));
    }

    // 2k and 2k + 1 become the ring of the loop `l`, whose vertex `start` was lone.
    fn mev_lone(&mut self, l: u16, start: u16, k: EdgeNumber, v: u16, p: Point)
        requires { lone self.old.boundary l ≡ Some start }
        ensures { self.new.boundary ≡ mev_lone self.old.boundary l k.number v p }
    {
        self.put_lone(l, None);
        let even = HalfEdge {
            start,
            next: k.odd(),
            owner: l,
        };
        let odd = HalfEdge {
            start: v,
            next: k.even(),
            owner: l,
        };
        set(&mut self.boundary.edges, k.number, Some(Edge { even, odd }));
        set(&mut self.boundary.vertices, v, Some(p));
    }

    pub(crate) fn mev(
        &mut self,
        place: u16,
        edge: EdgeNumber,
        vertex: u16,
        at: Point,
    ) -> Result<(), Refusal>
        ensures { Decided (mev_refusal self.old.boundary place edge.number vertex) self.old.boundary (mev self.old.boundary place edge.number vertex at) result self.new.boundary }
    {
        if !self.place_used(place) {
            return Err(Refusal::Unused);
        }
        if used(&self.boundary.edges, edge.number) || used(&self.boundary.vertices, vertex) {
            return Err(Refusal::Taken);
        }
        match Place::of(place) {
            Place::HalfEdge(h) => self.mev_before(h, edge, vertex, at),
            Place::Loop(l) => {
                let start = self.lone(l).ok_or(Refusal::Condition)?;
                self.mev_lone(l, start, edge, vertex, at);
            }
        }
        Ok(())
    }

    pub(crate) fn kev(&mut self, h: u16) -> Result<(), Refusal>
        ensures { Decided (kev_refusal self.old.boundary h) self.old.boundary (kev self.old.boundary h) result self.new.boundary }
    {
        if !self.half_used(h) {
            return Err(Refusal::Unused);
        }
        let there = self.half(h);
        let back = self.half(mate(h));
        if there.next != mate(h) {
            return Err(Refusal::Condition);
        }
        self.lead(h, back.next);
        self.leave_lone(back.next == h, there.owner, there.start);
        set(&mut self.boundary.edges, h / 2, None);
        set(&mut self.boundary.vertices, back.start, None);
        Ok(())
    }

    // The run from `from` to just before `to`, closed by 2k + 1, is the outer loop `outer` of `face`; the rest, closed by 2k, stays.
    fn mef_between(&mut self, from: u16, to: u16, k: EdgeNumber, face: u16, outer: u16)
        ensures { self.new.boundary ≡ mef self.old.boundary from to k.number face outer }
    {
        let first = self.half(from);
        let second = self.half(to);
        let shell = self.face_shell(self.loop_face(first.owner));
        own_run(&mut self.boundary.edges, from, to, outer);
        self.lead(from, k.even());
        self.lead(to, k.odd());
        let even = HalfEdge {
            start: first.start,
            next: to,
            owner: first.owner,
        };
        let odd = HalfEdge {
            start: second.start,
            next: from,
            owner: outer,
        };
        set(&mut self.boundary.edges, k.number, Some(Edge { even, odd }));
        set(&mut self.boundary.faces, face, Some(Face { shell, outer }));
        set(
            &mut self.boundary.loops,
            outer,
            Some(Loop { face, lone: None }),
        );
    }

    pub(crate) fn mef(
        &mut self,
        from: u16,
        to: u16,
        edge: EdgeNumber,
        face: u16,
        outer: u16,
    ) -> Result<(), Refusal>
        ensures { Decided (mef_refusal self.old.boundary from to edge.number face outer) self.old.boundary (mef self.old.boundary from to edge.number face outer) result self.new.boundary }
    {
        if !self.half_used(from) || !self.half_used(to) {
            return Err(Refusal::Unused);
        }
        if used(&self.boundary.edges, edge.number)
            || used(&self.boundary.faces, face)
            || used(&self.boundary.loops, outer)
        {
            return Err(Refusal::Taken);
        }
        if from == to || self.half(from).owner != self.half(to).owner {
            return Err(Refusal::Condition);
        }
        self.mef_between(from, to, edge, face, outer);
        Ok(())
    }

    // The ring of `x` joins that of `y` without both.
    fn splice(&mut self, x: u16, y: u16)
        ensures { self.new.boundary ≡ spliced self.old.boundary x y }
    {
        let first = self.half(x);
        let second = self.half(y);
        let past_x = replaced(second.next, y, first.next);
        let past_y = replaced(first.next, x, second.next);
        self.join(first.owner, second.owner);
        self.lead(x, past_x);
        self.lead(y, past_y);
        self.leave_lone(
            first.next == x && second.next == y,
            second.owner,
            first.start,
        );
    }

    // The edge, the loop and the face of `h` go.
    fn kef_away(&mut self, h: u16)
        ensures { self.new.boundary ≡ kef self.old.boundary h }
    {
        let owner = self.half(h).owner;
        let face = self.loop_face(owner);
        self.splice(h, mate(h));
        set(&mut self.boundary.edges, h / 2, None);
        set(&mut self.boundary.loops, owner, None);
        set(&mut self.boundary.faces, face, None);
    }

    pub(crate) fn kef(&mut self, h: u16) -> Result<(), Refusal>
        ensures { Decided (kef_refusal self.old.boundary h) self.old.boundary (kef self.old.boundary h) result self.new.boundary }
    {
        if !self.half_used(h) {
            return Err(Refusal::Unused);
        }
        let owner = self.half(h).owner;
        if owner == self.half(mate(h)).owner || self.loops_in(self.loop_face(owner)) != 1 {
            return Err(Refusal::Condition);
        }
        self.kef_away(h);
        Ok(())
    }

    // The edge of `h` goes, and the run between `h` and its mate is the new loop `l`.
    fn kemr_away(&mut self, h: u16, l: u16)
        ensures { self.new.boundary ≡ kemr self.old.boundary h l }
    {
        let there = self.half(h);
        let back = self.half(mate(h));
        let face = self.loop_face(there.owner);
        let lone = (there.next == mate(h)).then_some(back.start);
        own_run(&mut self.boundary.edges, there.next, mate(h), l);
        self.lead(mate(h), there.next);
        self.lead(h, back.next);
        set(&mut self.boundary.loops, l, Some(Loop { face, lone }));
        self.leave_lone(back.next == h, there.owner, there.start);
        set(&mut self.boundary.edges, h / 2, None);
    }

    pub(crate) fn kemr(&mut self, h: u16, inner: u16) -> Result<(), Refusal>
        ensures { Decided (kemr_refusal self.old.boundary h inner) self.old.boundary (kemr self.old.boundary h inner) result self.new.boundary }
    {
        if !self.half_used(h) {
            return Err(Refusal::Unused);
        }
        if used(&self.boundary.loops, inner) {
            return Err(Refusal::Taken);
        }
        if self.half(h).owner != self.half(mate(h)).owner {
            return Err(Refusal::Condition);
        }
        self.kemr_away(h, inner);
        Ok(())
    }

    // The loop of a place.
    fn place_loop(&self, place: u16) -> u16
        ensures { result ≡ place_loop self.now.boundary place }
    {
        match Place::of(place) {
            Place::HalfEdge(h) => self.half(h).owner,
            Place::Loop(l) => l,
        }
    }

    // The vertex of a place, which a loop without a lone one has not.
    fn place_vertex(&self, place: u16) -> Option<u16>
        ensures has { is_some result ≡ has_vertex self.now.boundary place }
        ensures is { unwrap_or result 0 ≡ place_vertex self.now.boundary place }
    {
        match Place::of(place) {
            Place::HalfEdge(h) => Some(self.half(h).start),
            Place::Loop(l) => self.lone(l),
        }
    }

    // What led to a half-edge leads to `x`; nothing leads to a lone vertex.
    fn lead_place(&mut self, place: u16, x: u16)
        ensures { self.new.boundary ≡ led_place self.old.boundary place x }
    {
        if let Place::HalfEdge(h) = Place::of(place) {
            self.lead(h, x);
        }
    }

    // 2k leads from the vertex `v` of `a` to the vertex `w` of `c`, and the loop of `c` joins that of `a`.
    fn mekr_between(&mut self, a: u16, c: u16, v: u16, w: u16, k: EdgeNumber)
        requires { (v ≡ place_vertex self.old.boundary a) × (w ≡ place_vertex self.old.boundary c) }
        ensures { self.new.boundary ≡ mekr self.old.boundary a c k.number }
    {
        let outer = self.place_loop(a);
        let inner = self.place_loop(c);
        self.join(inner, outer);
        self.lead_place(a, k.even());
        self.lead_place(c, k.odd());
        let edge = bridge(a, c, v, w, k, outer);
        set(&mut self.boundary.edges, k.number, Some(edge));
        self.put_lone(outer, None);
        set(&mut self.boundary.loops, inner, None);
    }

    // Two loops of one face, the second not its outer one.
    fn are_joinable(&self, l: u16, i: u16) -> bool
        ensures { result ≡ are_joinable self.now.boundary l i }
    {
        let face = self.loop_face(i);
        l != i && self.loop_face(l) == face && self.outer_of(face) != i
    }

    pub(crate) fn mekr(&mut self, to: u16, inner: u16, edge: EdgeNumber) -> Result<(), Refusal>
        ensures { Decided (mekr_refusal self.old.boundary to inner edge.number) self.old.boundary (mekr self.old.boundary to inner edge.number) result self.new.boundary }
    {
        if !self.place_used(to) || !self.place_used(inner) {
            return Err(Refusal::Unused);
        }
        if used(&self.boundary.edges, edge.number) {
            return Err(Refusal::Taken);
        }
        let v = self.place_vertex(to).ok_or(Refusal::Condition)?;
        let w = self.place_vertex(inner).ok_or(Refusal::Condition)?;
        if !self.are_joinable(self.place_loop(to), self.place_loop(inner)) {
            return Err(Refusal::Condition);
        }
        self.mekr_between(to, inner, v, w, edge);
        Ok(())
    }

    // Within one shell a handle is made; of two shells the second goes, and its faces take the first.
    fn connect(&mut self, s: u16, t: u16)
        ensures { self.new.boundary ≡ connected self.old.boundary s t }
    {
        if s == t {
            self.boundary.handles = self.boundary.handles.saturating_add(1);
        } else {
            self.merge(t, s);
            set(&mut self.boundary.shells, t, None);
        }
    }

    pub(crate) fn kfmrh(&mut self, kept: u16, killed: u16) -> Result<(), Refusal>
        ensures { Decided (kfmrh_refusal self.old.boundary kept killed) self.old.boundary (kfmrh self.old.boundary kept killed) result self.new.boundary }
    {
        if !used(&self.boundary.faces, kept) || !used(&self.boundary.faces, killed) {
            return Err(Refusal::Unused);
        }
        if kept == killed || self.loops_in(killed) != 1 {
            return Err(Refusal::Condition);
        }
        let s = self.face_shell(kept);
        let t = self.face_shell(killed);
        self.take_in(killed, kept);
        set(&mut self.boundary.faces, killed, None);
        self.connect(s, t);
        Ok(())
    }

    // One vertex row is lent and changed; all other rows stay.
    pub(crate) fn move_vertex(&mut self, vertex: u16, at: Point) -> Result<(), Refusal>
        ensures { Decided (move_refusal self.old.boundary vertex) self.old.boundary (move self.old.boundary vertex at) result self.new.boundary }
    {
        if !used(&self.boundary.vertices, vertex) {
            return Err(Refusal::Unused);
        }
        let lent = &mut self.boundary.vertices[vertex as usize];
        *lent = Some(at);
        Ok(())
    }
}

// Where the first face of a shell stands.
fn first_face(faces: &[Option<Face>], shell: u16) -> Option<usize>
    ensures { result ≡ position (in_row in_shell shell) faces.now }
{
    faces
        .iter()
        .position(|row| row.is_some_and(|face| face.shell == shell))
}

// The edge on the loop `owner` that leads from the vertex `v` of the place `a` to the vertex `w` of the place `c`.
fn bridge(a: u16, c: u16, v: u16, w: u16, k: EdgeNumber, owner: u16) -> Edge
    ensures { result ≡ edge (half_edge v (onward c (2 * k.number + 1)) owner) (half_edge w (onward a (2 * k.number)) owner) }
{
    Edge {
        even: HalfEdge {
            start: v,
            next: onward(c, k.odd()),
            owner,
        },
        odd: HalfEdge {
            start: w,
            next: onward(a, k.even()),
            owner,
        },
    }
}

// The half-edge of a place, or `x` at a lone vertex.
fn onward(place: u16, x: u16) -> u16
    ensures { result ≡ onward place x }
{
    match Place::of(place) {
        Place::HalfEdge(h) => h,
        Place::Loop(_) => x,
    }
}
