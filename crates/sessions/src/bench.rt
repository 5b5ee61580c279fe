// A bench that supplies the disks of a run: one settling disk, behind a new stop after each loss of power.
ghost use Rattle.sessions.specs.Benches.{Law, first_disk};

use disk::{Cell, Settling, Stop};
use runs::{Step, Supply};
use std::fmt::{self, Display, Formatter, Write};

// How many blocks the disk has.
pub const BLOCKS: usize = 16;

// The stop of the first disk, and of one behind the losses of the table.
pub const FIRST_STOP: u32 = 999;

// The cells of the disk.
type Memory = [Cell; BLOCKS];

// A loss of power: the letters of the blocks, and the stop of the disk that is found then.
// Once it came, there are the cells that it left.
#[derive(Clone, Copy)]
pub struct Loss {
    letters: &'static str,
    stop: u32,
    pub left: Option<Memory>,
}

// The stops cut the last flush of a commit, the write of a closing record, or a read.
pub const LOSSES: [Loss; 5] = [
    Loss {
        letters: "s",
        stop: 19,
        left: None,
    },
    Loss {
        letters: "ssssssn",
        stop: 18,
        left: None,
    },
    Loss {
        letters: "nnnnnnnnn",
        stop: 5,
        left: None,
    },
    Loss {
        letters: "s",
        stop: 19,
        left: None,
    },
    Loss {
        letters: "ssssssssu",
        stop: FIRST_STOP,
        left: None,
    },
];

impl Display for Loss {
    fn fmt<W: Write>(&self, f: &mut Formatter<W>) -> fmt::Result {
        let Loss { letters, stop, .. } = *self;
        write!(f, "lose {letters}, stop {stop}")
    }
}

// What comes behind the losses of the table.
pub const UNLISTED: Loss = Loss {
    letters: "s",
    stop: FIRST_STOP,
    left: None,
};

// The losses in the order in which they come.
#[derive(Clone, Copy)]
pub struct Bench {
    pub losses: [Loss; 5],
}

impl Supply for Bench {
    type Make = Stop<Settling<Memory>>;

    fn next(&mut self, lost: Stop<Settling<Memory>>) -> Stop<Settling<Memory>> {
        let mut disk = lost.into_disk();
        let Some(loss) = self.losses.iter_mut().find(|loss| loss.left.is_none()) else {
            disk.lose(UNLISTED.letters.as_bytes());
            return Stop::new(disk, UNLISTED.stop);
        };
        disk.lose(loss.letters.as_bytes());
        let cells = disk.into_cells();
        loss.left = Some(cells);
        Stop::new(Settling::new(cells), loss.stop)
    }
}

// Makes the calls of the steps on a blank disk, and writes each reply beside its call.
pub fn play(bench: &mut Bench, steps: &mut [Step])
    ensures { Law first_disk steps.new }
{
    let disk = Stop::new(Settling::new([Cell::blank(); BLOCKS]), FIRST_STOP);
    let phase = runs::run(bench, disk, steps);
    let _ = runs::into_disk(phase);
}
