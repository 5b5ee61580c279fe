// Lists of calls of a session with losses of power between and in them, and the law over every such list.
#![tactic(auto)]

ghost use Rattle.std.specs.Prelude.{◌≡◌, ◌≤◌, map, length};
ghost use Rattle.disk.specs.Losses.{AfterLoss, Blank};
ghost use Rattle.runs.specs.Laws.{KeptBy, call_of};
ghost use Rattle.runs.specs.Steps.{Stepped, disk_of};
ghost use Rattle.runs.specs.declared.Call.TheVariants.{Apply, Commit, Open};
ghost use Rattle.runs.specs.declared.Phase.TheVariants.{Editing, Idle};

use boundary::Edit;
use disk::Disk;
use faults::SessionFault;
use session::{Batch, Session, open};
use solid::Solid;

// What a disk is in: no session, a session, or a session with a batch begun.
pub enum Phase<D> {
    Idle(D),
    Opened(Session<D>),
    Editing(Batch<D>),
}

// The six calls, and the loss of power.
#[derive(Clone, Copy)]
pub enum Call {
    Open,
    Begin,
    Apply(Edit),
    Commit,
    Abandon,
    Close,
    Lose,
}

#[derive(Clone, Copy)]
pub enum Reply {
    // the phase does not allow the call, and nothing was done
    NotNow,
    Done,
    // an accepted open: the count of whole batches, and the solid
    Shown(u32, Solid),
    // an accepted edit: its position
    Placed(u32),
    // an acknowledged commit: the number of the batch
    Kept(u32),
    Refused(SessionFault),
}

// A call, and the reply that it got.
#[derive(Clone, Copy)]
pub struct Step {
    pub call: Call,
    pub reply: Reply,
}

// Whoever supplies the disks: after each loss of power, the disk that is found then.
pub trait Supply {
    type Make: Disk;

    fn next(&mut self, lost: Self::Make) -> Self::Make
        ensures { AfterLoss Self.Make.Disk.reads Self.Make.Disk.may lost result };
}

// The disk under a phase, whose session ends.
pub fn into_disk<D: Disk>(phase: Phase<D>) -> D
    ensures { result ≡ disk_of phase }
{
    match phase {
        Phase::Idle(disk) => disk,
        Phase::Opened(session) => session.close(),
        Phase::Editing(batch) => batch.abandon().close(),
    }
}

// Opens a session on a disk.
fn opened<D: Disk>(disk: D) -> (Phase<D>, Reply)
    ensures { Stepped D.Disk.reads D.Disk.may D.Disk.did (Idle disk) Open result.0 result.1 }
{
    let (session, answer) = open(disk);
    let shown = *session.solid();
    let reply = answer.map_or_else(Reply::Refused, |count| Reply::Shown(count, shown));
    (Phase::Opened(session), reply)
}

// An edit joins the batch, or is refused.
fn edited<D: Disk>(mut batch: Batch<D>, edit: Edit) -> (Phase<D>, Reply)
    ensures { Stepped D.Disk.reads D.Disk.may D.Disk.did (Editing batch) (Apply edit) result.0 result.1 }
{
    let reply = batch.edit(edit).map_or_else(Reply::Refused, Reply::Placed);
    (Phase::Editing(batch), reply)
}

// The batch is committed, or dropped.
fn committed<D: Disk>(batch: Batch<D>) -> (Phase<D>, Reply)
    ensures { Stepped D.Disk.reads D.Disk.may D.Disk.did (Editing batch) Commit result.0 result.1 }
{
    let (session, answer) = batch.commit();
    let reply = answer.map_or_else(Reply::Refused, Reply::Kept);
    (Phase::Opened(session), reply)
}

// Makes one call. A phase that does not allow it stays, and nothing is done.
fn make_call<S: Supply>(
    supply: &mut S,
    phase: Phase<S::Make>,
    call: Call,
) -> (Phase<S::Make>, Reply)
    ensures { Stepped S.Make.Disk.reads S.Make.Disk.may S.Make.Disk.did phase call result.0 result.1 }
{
    match (phase, call) {
        (Phase::Idle(disk), Call::Open) => opened(disk),
        (Phase::Opened(session), Call::Begin) => (Phase::Editing(session.begin()), Reply::Done),
        (Phase::Editing(batch), Call::Apply(edit)) => edited(batch, edit),
        (Phase::Editing(batch), Call::Commit) => committed(batch),
        (Phase::Editing(batch), Call::Abandon) => (Phase::Opened(batch.abandon()), Reply::Done),
        (Phase::Opened(session), Call::Close) => (Phase::Idle(session.close()), Reply::Done),
        (phase, Call::Lose) => (Phase::Idle(supply.next(into_disk(phase))), Reply::Done),
        (phase, _) => (phase, Reply::NotNow),
    }
}

// Makes the calls of the list, one after the other, and writes each reply beside its call. What opens is what was acknowledged.
pub fn run<S: Supply>(supply: &mut S, disk: S::Make, steps: &mut [Step]) -> Phase<S::Make>
    ensures calls { map call_of steps.new ≡ map call_of steps.old }
    ensures law { Blank S.Make.Disk.reads S.Make.Disk.may disk → 2 ≤ length (S.Make.Disk.reads disk) → length (S.Make.Disk.reads disk) ≤ 1000 → KeptBy S.Make.Disk.reads S.Make.Disk.may S.Make.Disk.did disk steps.new (disk_of result) }
{
    let mut phase = Phase::Idle(disk);
    for step in steps.iter_mut() {
        let (next, reply) = make_call(supply, phase, step.call);
        phase = next;
        step.reply = reply;
    }
    phase
}
