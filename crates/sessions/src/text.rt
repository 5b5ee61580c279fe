// Calls, replies and tallies as they are printed.
use boundary::{Edit, Point};
use disk::Fault;
use listing::counted;
use runs::{Call, Reply};
use std::fmt::{self, Display, Formatter, Write};
use tally::Tally;

// Shows a value of another crate.
#[derive(Drop)]
pub struct Shown<T>(pub T);

impl Display for Shown<Edit> {
    fn fmt<W: Write>(&self, f: &mut Formatter<W>) -> fmt::Result {
        match self.0 {
            Edit::Mvfs {
                shell,
                face,
                outer,
                vertex,
                at: Point { x, y, z },
            } => write!(f, "mvfs {shell} {face} {outer} {vertex} {x} {y} {z}"),
            Edit::Kvfs { shell } => write!(f, "kvfs {shell}"),
            Edit::Mev {
                place,
                edge,
                vertex,
                at: Point { x, y, z },
            } => write!(f, "mev {place} {edge} {vertex} {x} {y} {z}"),
            Edit::Kev { half } => write!(f, "kev {half}"),
            Edit::Mef {
                from,
                to,
                edge,
                face,
                outer,
            } => write!(f, "mef {from} {to} {edge} {face} {outer}"),
            Edit::Kef { half } => write!(f, "kef {half}"),
            Edit::Kemr { half, inner } => write!(f, "kemr {half} {inner}"),
            Edit::Mekr { to, inner, edge } => write!(f, "mekr {to} {inner} {edge}"),
            Edit::Kfmrh { kept, killed } => write!(f, "kfmrh {kept} {killed}"),
            Edit::Move {
                vertex,
                at: Point { x, y, z },
            } => write!(f, "move {vertex} {x} {y} {z}"),
        }
    }
}

impl Display for Shown<Call> {
    fn fmt<W: Write>(&self, f: &mut Formatter<W>) -> fmt::Result {
        match self.0 {
            Call::Open => write!(f, "open"),
            Call::Begin => write!(f, "begin"),
            Call::Apply(edit) => write!(f, "{}", Shown(edit)),
            Call::Commit => write!(f, "commit"),
            Call::Abandon => write!(f, "abandon"),
            Call::Close => write!(f, "close"),
            Call::Lose => write!(f, "lose"),
        }
    }
}

impl Display for Shown<&Reply> {
    fn fmt<W: Write>(&self, f: &mut Formatter<W>) -> fmt::Result {
        match self.0 {
            Reply::NotNow => write!(f, "not now"),
            Reply::Done => write!(f, "done"),
            Reply::Shown(count, solid) => {
                let counts = counted(solid.boundary());
                write!(f, "shows {count}, {counts}")
            }
            Reply::Placed(position) => write!(f, "at {position}"),
            Reply::Kept(number) => write!(f, "batch {number}"),
            Reply::Refused(fault) => {
                let number = fault.number();
                let place = fault.place();
                write!(f, "refused {number} at {place}")
            }
        }
    }
}

// The edits of a batch, if there is one.
impl Display for Shown<Option<u32>> {
    fn fmt<W: Write>(&self, f: &mut Formatter<W>) -> fmt::Result {
        match self.0 {
            Some(count) => write!(f, "{count} edits"),
            None => write!(f, "none"),
        }
    }
}

impl Display for Shown<Tally> {
    fn fmt<W: Write>(&self, f: &mut Formatter<W>) -> fmt::Result {
        let batches = self.0.batches;
        let begun = Shown(self.0.begun);
        let doubt = Shown(self.0.doubt);
        write!(f, "{batches} batches, {begun} begun, {doubt} in doubt")
    }
}
