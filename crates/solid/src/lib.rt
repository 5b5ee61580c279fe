// A solid: a boundary that only the operators change.
#![tactic(auto)]

ghost use Rattle.std.specs.Prelude.{◌≡◌};
ghost use Rattle.boundary.specs.Operators.{empty};
ghost use Rattle.boundary.specs.Refusals.{refusal, after, answer};
ghost use Rattle.rules.specs.Histories.{after_all, handles_made};
ghost use Rattle.rules.specs.Rules.{Sound};

use boundary::{Boundary, Edit, Refusal, named};
use ranges::{EdgeNumber, in_range};

mod operators;
mod ranges;
mod rows;

#[derive(Clone, Copy)]
pub struct Solid {
    boundary: Boundary,
}

impl Solid {
    // No row is used.
    pub fn empty() -> Solid
        ensures { result.boundary ≡ empty }
    {
        Solid {
            boundary: Boundary::empty(),
        }
    }

    // The solid of a list of edits, of which each refused one changes nothing.
    pub fn build(edits: &[Edit]) -> Solid
        ensures is { result.boundary ≡ after_all empty edits.now }
        ensures sound { Sound result.boundary }
        ensures handles { result.boundary.handles ≡ handles_made empty edits.now }
    {
        let mut built = Solid::empty();
        for edit in edits {
            let _ = built.apply(*edit);
        }
        built
    }

    // The rows, to look at.
    pub fn boundary(&self) -> &Boundary
        ensures { result.now ≡ self.now.boundary }
    {
        &self.boundary
    }

    // Carries an edit out, or refuses it and leaves the solid as it was.
    pub fn apply(&mut self, edit: Edit) -> Result<(), Refusal>
        ensures reply { result ≡ answer (refusal self.old.boundary edit) }
        ensures left { self.new.boundary ≡ after self.old.boundary edit }
        ensures sound { Sound self.old.boundary → Sound self.new.boundary }
    {
        if !in_range(edit) {
            return Err(Refusal::OutOfRange);
        }
        match edit {
            Edit::Mvfs {
                shell,
                face,
                outer,
                vertex,
                at,
            } => { self.mvfs(named(shell), named(face), named(outer), named(vertex), at) }
            Edit::Kvfs { shell } => self.kvfs(named(shell)),
            Edit::Mev {
                place,
                edge,
                vertex,
                at,
            } => self.mev(named(place), EdgeNumber::named(edge), named(vertex), at),
            Edit::Kev { half } => self.kev(named(half)),
            Edit::Mef {
                from,
                to,
                edge,
                face,
                outer,
            } => {
                self.mef(
                    named(from),
                    named(to),
                    EdgeNumber::named(edge),
                    named(face),
                    named(outer),
                )
            }
            Edit::Kef { half } => self.kef(named(half)),
            Edit::Kemr { half, inner } => self.kemr(named(half), named(inner)),
            Edit::Mekr { to, inner, edge } => self.mekr(
                named(to),
                named(inner),
                EdgeNumber::named(edge),
            ),
            Edit::Kfmrh { kept, killed } => self.kfmrh(named(kept), named(killed)),
            Edit::Move { vertex, at } => self.move_vertex(named(vertex), at),
        }
    }
}
