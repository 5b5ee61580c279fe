// Why a call of the solid, the journal or a session was refused. A fault that comes from below is carried whole.
#![tactic(auto)]

ghost use Rattle.std.specs.Prelude.{◌≡◌};
ghost use Rattle.faults.specs.Told.{journal_told, session_told, solid_told};
ghost use Rattle.faults.specs.declared.JournalFault.TheVariants.{Disk};
ghost use Rattle.faults.specs.declared.SessionFault.TheVariants.{FromJournal, FromSolid};

use boundary::Refusal;
use disk::{DiskFault, Fault, Layer, Told};

// How many edits a batch holds at most, and so the position of the first that is too many.
pub const MOST: usize = 16;

// Why an edit did not join a batch.
#[derive(Clone, Copy, PartialEq, Eq, Debug)]
pub enum SolidFault {
    // the solid refuses the edit, which is at this position of its batch
    Refused { why: Refusal, position: u32 },
    // the batch has sixteen edits
    TooMany,
}

impl Fault for SolidFault {
    ghost told = { solid_told };

    fn told(&self) -> Told {
        let (number, place) = match *self {
            SolidFault::Refused { why, position } => (u32::from(why.number()), position as usize),
            SolidFault::TooMany => (5, MOST),
        };
        Told {
            number,
            layer: Layer::Solid,
            place,
        }
    }
}

// Why the journal was not read, or a batch not appended.
#[derive(Clone, Copy, PartialEq, Eq, Debug)]
pub enum JournalFault {
    // a call of the disk was refused
    Disk(DiskFault),
    // the batch has no edits; the tail
    NoEdits(u32),
    // the batch does not fit behind the tail; the tail
    Full(u32),
    // a disk of so many blocks holds no journal
    BadSize(usize),
    // an edit of a whole batch, in this block, is refused
    Unfit(u32, SolidFault),
}

impl From<DiskFault> for JournalFault {
    ghost from_gives = { λ fault r. r ≡ Disk fault };

    fn from(fault: DiskFault) -> JournalFault {
        JournalFault::Disk(fault)
    }
}

impl Fault for JournalFault {
    ghost told = { journal_told };

    fn told(&self) -> Told {
        let (number, place) = match *self {
            JournalFault::Disk(fault) => return fault.told(),
            JournalFault::NoEdits(tail) => (6, tail as usize),
            JournalFault::Full(tail) => (7, tail as usize),
            JournalFault::BadSize(count) => (10, count),
            JournalFault::Unfit(block, _) => (30, block as usize),
        };
        Told {
            number,
            layer: Layer::Journal,
            place,
        }
    }
}

// Why a call of a session was refused: by its journal, or by its solid.
#[derive(Clone, Copy, PartialEq, Eq, Debug)]
pub enum SessionFault {
    FromJournal(JournalFault),
    FromSolid(SolidFault),
}

impl From<JournalFault> for SessionFault {
    ghost from_gives = { λ fault r. r ≡ FromJournal fault };

    fn from(fault: JournalFault) -> SessionFault {
        SessionFault::FromJournal(fault)
    }
}

impl From<SolidFault> for SessionFault {
    ghost from_gives = { λ fault r. r ≡ FromSolid fault };

    fn from(fault: SolidFault) -> SessionFault {
        SessionFault::FromSolid(fault)
    }
}

impl Fault for SessionFault {
    ghost told = { session_told };

    fn told(&self) -> Told {
        match *self {
            SessionFault::FromJournal(fault) => fault.told(),
            SessionFault::FromSolid(fault) => fault.told(),
        }
    }
}
