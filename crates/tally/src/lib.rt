// The ledger in counts, from the replies of a run and from what each loss of power left.
#![tactic(auto)]

ghost use Rattle.std.specs.Prelude.{◌≡◌, ℕ, ◌≤◌, List, Option, slice_index_or};
ghost use Rattle.disk.specs.declared.Content.{Content};
ghost use Rattle.disk.specs.declared.Content.TheVariants.{Unreadable};
ghost use Rattle.disk.specs.declared.DiskFault.{DiskFault};
ghost use Rattle.runs.specs.Laws.{foretold};
ghost use Rattle.runs.specs.Ledgers.{Ledger, after_call, after_loss, nothing};
ghost use Rattle.standing.specs.Batches.{blocks};
ghost use Rattle.standing.specs.Standing.{closes, record_in};
ghost use Rattle.std.specs.Option.{unwrap_or};
ghost use Rattle.tally.specs.Tallies.{acknowledged, doubtful, dropped, lost, noted, tally_of};

use disk::Content;
use faults::{JournalFault, SessionFault};
use records::Record;
use runs::{Call, Reply};

// The acknowledged batches and the block behind them, the edits of the begun batch and of the one in doubt, and whether a 20 has met the session.
#[derive(Clone, Copy, Default)]
pub struct Tally {
    pub batches: u32,
    pub tail: u32,
    pub begun: Option<u32>,
    pub doubt: Option<u32>,
    pub faulted: bool,
}

impl Tally {
    pub fn new() -> Tally
        ensures { result ≡ tally_of nothing }
    {
        Tally::default()
    }

    // After a call that was answered so. Where the reply is the one that the ledger foretells, these are the counts of the ledger after it.
    pub fn note(&mut self, call: Call, reply: Reply)
        ensures is { self.new ≡ noted self.old call reply }
        ensures ledger { (n : ℕ) (l : Ledger) (cut : Option DiskFault) → n ≤ 1000 → self.old ≡ tally_of l → reply ≡ foretold n l.acknowledged l.stage call cut → self.new ≡ tally_of (after_call n l call cut) }
    {
        match (call, reply) {
            (Call::Open, Reply::Refused(_)) => self.faulted = true,
            (Call::Begin, Reply::Done) => self.begun = Some(0),
            (Call::Apply(_), Reply::Placed(position)) => {
                self.begun = Some(position.saturating_add(1));
            }
            (Call::Commit, Reply::Kept(number)) => self.acknowledge(number),
            (Call::Commit, Reply::Refused(fault)) => self.drop_batch(fault),
            (Call::Abandon, Reply::Done) => self.begun = None,
            (Call::Close, Reply::Done) => self.faulted = false,
            _ => {}
        }
    }

    // The begun batch is acknowledged.
    fn acknowledge(&mut self, number: u32)
        ensures { self.new ≡ acknowledged self.old number }
    {
        let edits = self.begun.unwrap_or(0);
        self.batches = number;
        self.tail = self.tail.saturating_add(edits).saturating_add(1);
        self.begun = None;
    }

    // A batch whose commit was refused is in doubt where a 20 within it was the first of its session, and else dropped.
    fn drop_batch(&mut self, fault: SessionFault)
        ensures { self.new ≡ dropped self.old fault }
    {
        match fault {
            SessionFault::FromJournal(JournalFault::Disk(_)) if !self.faulted => {
                self.doubt = self.begun;
                self.faulted = true;
            }
            _ => {}
        }
        self.begun = None;
    }

    // The last block of the batch in doubt.
    pub fn doubtful(&self) -> Option<u32>
        ensures { result ≡ doubtful self.now }
    {
        self.doubt.map(|edits| self.tail.saturating_add(edits))
    }

    // After a loss that left this content in that block: the counts of the ledger after it.
    pub fn note_loss(&mut self, last: Content)
        ensures is { self.new ≡ lost self.old last }
        ensures ledger { (l : Ledger) (cs : List Content) → blocks l.acknowledged ≤ 1000 → unwrap_or self.old.doubt 0 ≤ 16 → self.old ≡ tally_of l → last ≡ slice_index_or cs (unwrap_or (doubtful self.old) 0) Unreadable → self.new ≡ tally_of (after_loss l cs) }
    {
        if let Some(edits) = self.doubt {
            let number = self.batches.saturating_add(1);
            if is_closing(last, number, edits) {
                self.begun = Some(edits);
                self.acknowledge(number);
            }
        }
        self.begun = None;
        self.doubt = None;
        self.faulted = false;
    }
}

// Whether a content is the closing record of a batch of so many edits.
fn is_closing(content: Content, number: u32, edits: u32) -> bool
    ensures { result ≡ closes (record_in content) number edits }
{
    match standing::record_in(content) {
        Some(
            Record::Closing {
                number: closed,
                count,
            },
        ) => closed == number && u32::from(count) == edits,
        _ => false,
    }
}
