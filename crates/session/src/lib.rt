// A session owns its disk, and a batch its session. Neither can be let go: a batch is committed or abandoned, and a session closed.
#![tactic(auto)]

ghost use Rattle.std.specs.Prelude.{◌≡◌};
ghost use Rattle.session.specs.Sessions.{Begins, Commits, Edits, Opens, after_refused, answered};

use boundary::Edit;
use disk::Disk;
use faults::{JournalFault, SessionFault, SolidFault};
use journal::{Draft, Extent};
use solid::Solid;

// The disk, the solid of the whole batches on it, and where the next batch goes.
// Instead of that there is the fault of a refused open, or of a disk call in a commit, once there was one.
pub struct Session<D> {
    disk: D,
    solid: Solid,
    next: Result<Extent, JournalFault>,
}

// A session with a batch begun: the session as it was, the draft of its solid and the edits that made it.
pub struct Batch<D> {
    session: Session<D>,
    draft: Solid,
    edits: Draft,
}

// Reads the journal of a disk, and answers how many whole batches stand.
pub fn open<D: Disk>(mut disk: D) -> (Session<D>, Result<u32, SessionFault>)
    ensures { Opens D.Disk.reads D.Disk.did disk result.0 result.1 }
{
    let (solid, next) = journal::read(&mut disk);
    (Session { disk, solid, next }, answered(next))
}

// What is answered beside a session: the number of batches behind which the extent lies.
fn answered(next: Result<Extent, JournalFault>) -> Result<u32, SessionFault>
    ensures { result ≡ answered next }
{
    Ok(next?.batches)
}

// Where the next batch goes after a refused commit: a fault of the disk stays.
fn after_refused(extent: Extent, fault: JournalFault) -> Result<Extent, JournalFault>
    ensures { result ≡ after_refused extent fault }
{
    match fault {
        JournalFault::Disk(_) => Err(fault),
        _ => Ok(extent),
    }
}

impl<D: Disk> Session<D> {
    // Begins a batch, which has no edits yet.
    pub fn begin(self) -> Batch<D>
        ensures { Begins self result }
    {
        let draft = self.solid;
        Batch {
            session: self,
            draft,
            edits: Draft::new(),
        }
    }

    // The solid, to look at: that of the whole batches, or the empty one after a refused open.
    pub fn solid(&self) -> &Solid
        ensures { result.now ≡ self.now.solid }
    {
        &self.solid
    }

    // Ends the session, and gives the disk back.
    pub fn close(self) -> D
        ensures { result ≡ self.disk }
    {
        let Session {
            disk,
            solid: _,
            next: _,
        } = self;
        disk
    }
}

impl<D: Disk> Batch<D> {
    // One edit more, which answers its position; a refused one leaves the batch as it was.
    pub fn edit(&mut self, edit: Edit) -> Result<u32, SessionFault>
        ensures { Edits self.old edit self.new result }
    {
        self.session.next?;
        let position = self.edits.room()?;
        self.draft
            .apply(edit)
            .map_err(|why| SolidFault::Refused { why, position })?;
        let _ = self.edits.push(edit);
        Ok(position)
    }

    // Gives the batch up: the session is as it was at begin.
    pub fn abandon(self) -> Session<D>
        ensures { result ≡ self.session }
    {
        let Batch {
            session,
            draft: _,
            edits: _,
        } = self;
        session
    }

    // Appends the batch to the journal, and answers its number.
    pub fn commit(self) -> (Session<D>, Result<u32, SessionFault>)
        ensures { Commits D.Disk.did self result.0 result.1 }
    {
        let Batch {
            session,
            draft,
            edits,
        } = self;
        let extent = match session.next {
            Ok(extent) => extent,
            Err(fault) => return (session, Err(SessionFault::FromJournal(fault))),
        };
        let Session {
            mut disk,
            solid,
            next: _,
        } = session;
        let appended = journal::append(&mut disk, extent, &edits);
        let (solid, next) = match appended {
            Ok(behind) => (draft, Ok(behind)),
            Err(fault) => (solid, after_refused(extent, fault)),
        };
        (Session { disk, solid, next }, answered(appended))
    }
}
