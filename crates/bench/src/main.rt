// Tries a settling disk behind stops: makes calls, loses the power, and prints what was answered and what each block reads afterwards.
#![tactic(auto)]

ghost use Rattle.bench.specs.Lives.{Lived, Relived};
ghost use Rattle.bench.specs.Steps.{call_of, calls_of};
ghost use Rattle.disk.specs.Chains.{Chain};

use disk::{Cell, Content, Disk, DiskFault, Either, Fault, Lent, Settling, Stop};
use std::{fmt, io};

// What is asked of a disk. A write fills the block with one byte.
#[derive(Clone, Copy)]
enum Act {
    Write(u32, u8),
    Read(u32),
    Flush,
}

// What was answered: a read gives a content.
#[derive(Clone, Copy)]
struct Answer(Result<Option<Content>, DiskFault>);

// Eight blocks: some are written and settled, and then some are written again. There is no block 8.
const CALLS: [Act; 12] = [
    Act::Write(0, 100),
    Act::Write(1, 101),
    Act::Write(2, 102),
    Act::Write(3, 103),
    Act::Flush,
    Act::Write(0, 200),
    Act::Write(1, 201),
    Act::Write(2, 202),
    Act::Write(4, 204),
    Act::Read(0),
    Act::Read(8),
    Act::Flush,
];

// Every block is read.
const LOOKS: [Act; 8] = [
    Act::Read(0),
    Act::Read(1),
    Act::Read(2),
    Act::Read(3),
    Act::Read(4),
    Act::Read(5),
    Act::Read(6),
    Act::Read(7),
];

impl fmt::Display for Answer {
    fn fmt<W: fmt::Write>(&self, f: &mut fmt::Formatter<W>) -> fmt::Result {
        match self.0 {
            Ok(None) => write!(f, "done"),
            Ok(Some(Content::Unreadable)) => write!(f, "unreadable"),
            Ok(Some(Content::Bytes(bytes))) => {
                let first = bytes[0];
                write!(f, "{first}")
            }
            Err(fault) => {
                let number = fault.number();
                let place = fault.place();
                write!(f, "{number}@{place}")
            }
        }
    }
}

fn perform<D: Disk>(disk: &mut D, act: Act) -> Answer
    ensures { D.Disk.did disk.old (call_of act result) disk.new }
{
    Answer(match act {
        Act::Write(block, byte) => disk.write(block, [byte; 32]).map(|()| None),
        Act::Read(block) => disk.read(block).map(Some),
        Act::Flush => disk.flush().map(|()| None),
    })
}

// Makes the calls, and gives their answers.
fn perform_all<D: Disk, const N: usize>(disk: &mut D, acts: &[Act; N]) -> [Answer; N]
    ensures { Chain D.Disk.did disk.old (calls_of acts.now result) disk.new }
{
    let mut answers = [Answer(Ok(None)); N];
    for (i, act) in acts.iter().enumerate() {
        answers[i] = perform(disk, *act);
    }
    answers
}

// The first life of a disk over the cells: makes the calls behind a stop on a stop, and loses the power.
fn first_life<const N: usize>(
    cells: &mut [Cell],
    stops: (u32, u32),
    acts: &[Act; N],
    letters: &[u8],
) -> [Answer; N]
    ensures { Lived cells.old stops.0 stops.1 (calls_of acts.now result) }
{
    let (inner, outer) = stops;
    let mut disk = Stop::new(Stop::new(Settling::new(Lent::new(cells)), inner), outer);
    let answers = perform_all(&mut disk, acts);
    let mut settling = disk.into_disk().into_disk();
    settling.lose(letters);
    answers
}

// The second life, behind a stop or plain.
fn second_life<const N: usize>(
    cells: &mut [Cell],
    stop: Option<u32>,
    acts: &[Act; N],
) -> [Answer; N]
    ensures { Relived cells.old stop (calls_of acts.now result) }
{
    let disk = Settling::new(Lent::new(cells));
    let mut next = match stop {
        Some(left) => Either::First(Stop::new(disk, left)),
        None => Either::Second(disk),
    };
    perform_all(&mut next, acts)
}

fn tell(rt: &HostRuntime, title: &str, answers: &[Answer]) -> io::Result<()> {
    print!(rt; "  {title}:")?;
    for answer in answers {
        print!(rt; " {answer}")?;
    }
    println!(rt)
}

fn trial(rt: &HostRuntime, stops: (u32, u32), letters: &str, next: Option<u32>) -> io::Result<()> {
    let mut cells = [Cell::still(Content::Unreadable); 8];
    disk::blank(&mut cells);
    let answers = first_life(&mut cells, stops, &CALLS, letters.as_bytes());
    let looks = second_life(&mut cells, next, &LOOKS);
    let (inner, outer) = stops;
    println!(rt; "stops {inner} and {outer}, letters {letters}")?;
    tell(rt, "answers", &answers)?;
    tell(rt, "reads", &looks)
}

fn main(rt: HostRuntime) -> io::Result<()> {
    trial(&rt, (99, 99), "nuxunuxu", None)?;
    trial(&rt, (10, 99), "nuxun", None)?;
    trial(&rt, (99, 9), "un", None)?;
    trial(&rt, (7, 9), "nnnnnnnn", None)?;
    trial(&rt, (4, 4), "xun", Some(3))
}
