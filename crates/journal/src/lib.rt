// The journal on a disk: reading the whole batches that stand, and appending one more.
#![tactic(auto)]

ghost use Rattle.std.specs.Prelude.{◌≡◌, ◌+◌, ◌<◌, ◌≤◌, List, length, Some, None, Option};
ghost use Rattle.journal.specs.Appends.{Appends};
ghost use Rattle.journal.specs.Drafts.{drafted};
ghost use Rattle.journal.specs.Lives.{AppendsOn, ExtentOf, ReadsOn};
ghost use Rattle.journal.specs.Readings.{Advanced, Applied, Looked, Read, Starts, Within};
ghost use Rattle.boundary.specs.declared.Edit.{Edit};
ghost use Rattle.standing.specs.Batches.{InRange};
ghost use Rattle.standing.specs.Journals.{Kept};
ghost use Rattle.standing.specs.Plans.{Carried, plan};
ghost use Rattle.records.specs.declared.Record.TheVariants.{Closing};

use boundary::Edit;
use disk::{Disk, DiskFault, Fault};
pub use draft::Draft;
use faults::{JournalFault, SolidFault};
use records::Record;
use solid::Solid;

mod draft;

// How far a journal has come: the blocks of its disk, the whole batches, and the first block behind them.
#[derive(Clone, Copy, PartialEq, Eq, Debug)]
pub struct Extent {
    pub count: u16,
    pub batches: u32,
    pub tail: u16,
}

// A disk of fewer blocks than the least, or of more than the most, holds no journal.
const LEAST_BLOCKS: usize = 2;

const MOST_BLOCKS: usize = 1_000;

// Applies the edits one after the other, up to the first that is refused.
fn apply_all(solid: &mut Solid, batch: &Draft) -> Result<(), SolidFault>
    ensures { Applied solid.old.boundary (drafted batch.now) result solid.new.boundary }
{
    for (i, edit) in batch.edits().iter().enumerate() {
        let position = i as u32;
        solid
            .apply(*edit)
            .map_err(|why| SolidFault::Refused { why, position })?;
    }
    Ok(())
}

// How far a reading has come: what stands so far, and the edits of the batch that is being read.
// Once a block starts no whole batch there is none, and the blocks behind it are read and not used.
#[derive(Clone, Copy)]
struct Reader {
    solid: Solid,
    extent: Extent,
    draft: Option<Draft>,
}

impl Reader {
    // No block is read yet, of so many.
    fn new(count: u16) -> Reader
        ensures { Starts count result }
    {
        Reader {
            solid: Solid::empty(),
            extent: Extent {
                count,
                batches: 0,
                tail: 0,
            },
            draft: Some(Draft::new()),
        }
    }

    // The batch that is being read is whole: its edits are applied, and the next one begins.
    fn close_batch(&mut self, batch: &Draft) -> Result<(), JournalFault>
        requires read { self.old.draft ≡ Some batch.now }
        requires some { 0 < length (drafted batch.now) }
        requires within { Within self.old 1000 }
        ensures { Advanced self.old (Some (Closing (self.old.extent.batches + 1) (length (drafted batch.now)))) result self.new }
    {
        let tail = self.extent.tail;
        apply_all(&mut self.solid, batch).map_err(|fault| JournalFault::Unfit(
            u32::from(tail) + fault.place() as u32,
            fault,
        ))?;
        self.extent.batches += 1;
        self.extent.tail += batch.edits().len() as u16 + 1;
        self.draft = Some(Draft::new());
        Ok(())
    }

    // The next block, with its record if it is one. What does not go on with the batch ends the reading.
    fn advance(&mut self, record: Option<Record>) -> Result<(), JournalFault>
        requires { Within self.old 1000 }
        ensures { Advanced self.old «record» result self.new }
    {
        let Some(draft) = &mut self.draft else {
            return Ok(());
        };
        let batch = self.extent.batches + 1;
        let next = draft.edits().len();
        match record {
            Some(
                Record::Change {
                    number,
                    position,
                    edit,
                },
            ) if number == batch && position as usize == next => {
                if draft.push(edit).is_err() {
                    self.draft = None;
                }
                Ok(())
            }
            Some(Record::Closing { number, count })
                if number == batch && count as usize == next && count > 0 => {
                let whole = *draft;
                self.close_batch(&whole)
            }
            _ => {
                self.draft = None;
                Ok(())
            }
        }
    }
}

// Reads every block once, rising, up to the first 20 or a whole batch with a refused edit.
fn read_blocks<D: Disk>(disk: &mut D) -> Result<Reader, JournalFault>
    ensures { Read D.Disk.reads D.Disk.did disk.old result disk.new }
{
    let count = disk.size();
    if !(LEAST_BLOCKS..=MOST_BLOCKS).contains(&count) {
        return Err(JournalFault::BadSize(count));
    }
    let mut reader = Reader::new(count as u16);
    for k in 0..count {
        let content = disk.read(k as u32)?;
        reader.advance(standing::record_in(content))?;
    }
    Ok(reader)
}

// Reads what stands on a disk: the solid that its whole batches build, and the extent. After a refusal the solid is empty.
pub fn read<D: Disk>(disk: &mut D) -> (Solid, Result<Extent, JournalFault>)
    ensures is { Looked D.Disk.reads D.Disk.did disk.old result.0.boundary result.1 disk.new }
    ensures life { (d : D) (bs : List (List Edit)) (q : Option (List Edit)) → length (D.Disk.reads d) ≤ 1000 → Kept D.Disk.reads D.Disk.may D.Disk.did d bs q disk.old → ReadsOn D.Disk.reads D.Disk.may D.Disk.did d bs q result.0.boundary result.1 disk.new }
{
    match read_blocks(disk) {
        Ok(reader) => (reader.solid, Ok(reader.extent)),
        Err(fault) => (Solid::empty(), Err(fault)),
    }
}

// Writes the edits of batch `number` from the tail on, flushes, writes the closing record, flushes. The first refusal ends it.
fn write_batch<D: Disk>(
    disk: &mut D,
    number: u32,
    tail: u32,
    batch: &Draft,
) -> Result<(), DiskFault>
    requires { tail < 65536 }
    ensures { Carried D.Disk.did disk.old (plan number tail (drafted batch.now)) result disk.new }
{
    let edits = batch.edits();
    for (i, edit) in edits.iter().enumerate() {
        let change = Record::Change {
            number,
            position: i as u16,
            edit: *edit,
        };
        disk.write(tail + i as u32, records::encode(change))?;
    }
    disk.flush()?;
    let count = edits.len();
    let closing = Record::Closing {
        number,
        count: count as u16,
    };
    disk.write(tail + count as u32, records::encode(closing))?;
    disk.flush() // settles the closing record
}

// Appends a batch at the extent, and gives the extent behind it, whose count of batches is the batch's number.
pub fn append<D: Disk>(disk: &mut D, extent: Extent, batch: &Draft) -> Result<Extent, JournalFault>
    ensures is { Appends D.Disk.did disk.old extent (drafted batch.now) result disk.new }
    ensures life { (d : D) (bs : List (List Edit)) → length (D.Disk.reads d) ≤ 1000 → Kept D.Disk.reads D.Disk.may D.Disk.did d bs None disk.old → ExtentOf (length (D.Disk.reads d)) bs extent → InRange (drafted batch.now) → AppendsOn D.Disk.reads D.Disk.may D.Disk.did d bs (drafted batch.now) result disk.new }
{
    let edits = batch.edits();
    let tail = u32::from(extent.tail);
    if edits.is_empty() {
        return Err(JournalFault::NoEdits(tail));
    }
    let end = tail + edits.len() as u32 + 1;
    if end > u32::from(extent.count) {
        return Err(JournalFault::Full(tail));
    }
    let number = extent.batches.saturating_add(1);
    write_batch(disk, number, tail, batch)?;
    Ok(Extent {
        batches: number,
        tail: end as u16,
        ..extent
    })
}
