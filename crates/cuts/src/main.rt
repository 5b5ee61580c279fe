// Journals a batch on a blank settling disk behind a stop, loses the power, and prints what is then read:
// for each count of the stop, with every choice of letters at the blocks that wait.
#![tactic(auto)]

ghost use Rattle.std.specs.Prelude.{◌≡◌};
ghost use Rattle.disk.specs.Settlings.{blank_cells};
ghost use Rattle.cuts.specs.Cuts.{Appended, Survived, WaitsAfter, flat, the_batch};
ghost use Rattle.journal.specs.Drafts.{drafted};

use boundary::{Edit, Point};
use disk::{Cell, Fault, Settling, Stop};
use faults::JournalFault;
use journal::{Draft, Extent};
use solid::Solid;
use std::fmt::{self, Display, Formatter, Write};
use std::io;

// How many blocks the disk has.
const BLOCKS: usize = 8;

// Nothing is journaled yet, on eight blocks.
const NOTHING: Extent = Extent {
    count: BLOCKS as u16,
    batches: 0,
    tail: 0,
};

// Appending the batch makes three writes, a flush, a write and a flush.
const DISK_CALLS: u32 = 6;

// What a loss may leave of a block that waits: its newest content, nothing readable, or its settled content.
const LETTERS: [u8; 3] = [b'n', b'u', b's'];

fn point(x: i32, y: i32) -> Point
    ensures { result ≡ flat x y }
{
    Point { x, y, z: 0 }
}

// A vertex, and two edges one behind the other.
fn batch() -> Draft
    ensures { drafted result ≡ the_batch }
{
    let mut draft = Draft::new();
    let _ = draft.push(Edit::Mvfs {
        shell: 0,
        face: 0,
        outer: 0,
        vertex: 0,
        at: point(0, 0),
    });
    let _ = draft.push(Edit::Mev {
        place: 512,
        edge: 0,
        vertex: 1,
        at: point(256, 0),
    });
    let _ = draft.push(Edit::Mev {
        place: 1,
        edge: 1,
        vertex: 2,
        at: point(256, 256),
    });
    draft
}

// The disk after the batch was appended behind a stop.
fn appended(stop: u32) -> Settling<[Cell; BLOCKS]>
    ensures { Appended (blank_cells 8) stop result.cells }
{
    let mut disk = Stop::new(Settling::new([Cell::blank(); BLOCKS]), stop);
    let _ = journal::append(&mut disk, NOTHING, &batch());
    disk.into_disk()
}

// Which blocks wait after the append.
fn waiting(stop: u32) -> Waits
    ensures { WaitsAfter stop result.0 }
{
    Waits(
        appended(stop)
            .into_cells()
            .map(|cell| cell.waiting.is_some()),
    )
}

// What is read where the power was lost, with these letters, after the append.
fn survived(stop: u32, letters: &[u8]) -> (Solid, Result<Extent, JournalFault>)
    ensures { Survived stop letters.now result.0.boundary result.1 }
{
    let mut disk = appended(stop);
    disk.lose(letters);
    journal::read(&mut disk)
}

// The blocks that wait.
#[derive(Clone, Copy)]
struct Waits([bool; BLOCKS]);

impl Waits {
    // How many choices of letters there are: three at each block that waits.
    fn choices(&self) -> usize {
        self.0
            .iter()
            .filter(|waits| **waits)
            .fold(1, |n: usize, _| n.saturating_mul(LETTERS.len()))
    }

    // A choice by its number: in base three, the last block that waits has the lowest digit.
    fn choice(&self, number: usize) -> Choice {
        let mut letters = [None; BLOCKS];
        let mut rest = number;
        for (letter, waits) in letters.iter_mut().zip(self.0.iter()).rev() {
            if *waits {
                *letter = Some(LETTERS[rest % LETTERS.len()]);
                rest /= LETTERS.len();
            }
        }
        Choice(letters)
    }
}

// A letter at each block that waits.
#[derive(Clone, Copy)]
struct Choice([Option<u8>; BLOCKS]);

impl Choice {
    // The letters of a loss: the others have an s.
    fn letters(&self) -> [u8; BLOCKS] {
        self.0.map(|letter| letter.unwrap_or(b's'))
    }
}

// The letters, or a dash where no block waits.
impl Display for Choice {
    fn fmt<W: Write>(&self, f: &mut Formatter<W>) -> fmt::Result {
        if self.0.iter().all(|letter| letter.is_none()) {
            return f.write_char('-');
        }
        for letter in self.0.iter().flatten() {
            f.write_char(char::from(*letter))?;
        }
        Ok(())
    }
}

fn tell(rt: &HostRuntime, stop: u32, choice: Choice) -> io::Result<()> {
    let (solid, read) = survived(stop, &choice.letters());
    let counts = listing::counted(solid.boundary());
    match read {
        Ok(extent) => {
            let batches = extent.batches;
            println!(rt; "cut {stop} {choice}: {batches} batches, {counts}")
        }
        Err(fault) => {
            let refused = fault.number();
            println!(rt; "cut {stop} {choice}: {refused}")
        }
    }
}

// A line for each count of the stop and each choice of letters.
fn main(rt: HostRuntime) -> io::Result<()> {
    for stop in 0..=DISK_CALLS {
        let waits = waiting(stop);
        for number in 0..waits.choices() {
            tell(&rt, stop, waits.choice(number))?;
        }
    }
    Ok(())
}
