// A disk of 32-byte blocks, the rule that every make of it keeps, and three makes.
#![tactic(auto)]

ghost use Rattle.std.specs.Prelude.{◌≡◌, ℕ, ◌-◌, ◌<◌, Bool, false, List, map, length, slice_index_or, slice_set};
ghost use Rattle.disk.specs.Calls.{Call, flushing, reading, writing};
ghost use Rattle.disk.specs.Contents.{bytes_of, zeros};
ghost use Rattle.disk.specs.declared.Cell.{Cell};
ghost use Rattle.disk.specs.declared.Content.{Content};
ghost use Rattle.disk.specs.declared.Told.{Told};
ghost use Rattle.disk.specs.declared.Content.TheVariants.{Unreadable};
ghost use Rattle.disk.specs.Eithers.{either, EitherDid};
ghost use Rattle.disk.specs.Faults.{disk_told};
ghost use Rattle.disk.specs.Losses.{AfterLoss, Blank};
ghost use Rattle.disk.specs.Rule.{Allowed};
ghost use Rattle.disk.specs.Settlings.{May, Went, blank_cells, changed, lost, lost_cell, read_all, read_cell, settle_cell, still, written};
ghost use Rattle.disk.specs.Stops.{Stopped, counted, found, left_found, stop_gone};
ghost use Rattle.std.specs.List.{slice_get};
ghost use Rattle.std.specs.Option.{unwrap_or};
ghost use Rattle.disk.specs.StopsLemmas.{stop_keeps};
ghost use Rattle.std.proofs.Common.{rules};
ghost use Rattle.disk.specs.EithersLemmas.{either_stands, either_keeps};
ghost use Rattle.disk.specs.SettlingsLemmas.{settling_stands, settling_keeps};

// What a fault at a flush tells as its place, since a flush names no block.
const NO_BLOCK: usize = 65_535;

// What a block reads.
#[derive(Clone, Copy, PartialEq, Eq, Debug)]
pub enum Content {
    Bytes([u8; 32]),
    Unreadable,
}

impl Content {
    // The bytes, which are zero beside the mark unreadable.
    pub fn bytes(&self) -> [u8; 32]
        ensures { result ≡ bytes_of self.now }
    {
        match *self {
            Content::Bytes(bytes) => bytes,
            Content::Unreadable => [0; 32],
        }
    }
}

// The part of the program that a fault comes from.
#[derive(Clone, Copy, PartialEq, Eq, Debug)]
pub enum Layer {
    Disk,
    Journal,
    Solid,
    Script,
}

// Why a disk did not serve a call, with the block that it named; a flush names none.
#[derive(Clone, Copy, PartialEq, Eq, Debug)]
pub enum DiskFault {
    PowerGone(Option<u32>),
    NoSuchBlock(u32),
}

// What a fault tells whoever is answered by it.
#[derive(Clone, Copy, PartialEq, Eq, Debug)]
pub struct Told {
    pub number: u32,
    pub layer: Layer,
    pub place: usize,
}

// A reason why a call was refused.
pub trait Fault {
    ghost told: { Self → Told };

    fn told(&self) -> Told
        ensures { result ≡ told self.now };

    fn number(&self) -> u32
        ensures { result ≡ (told self.now).number }
    {
        self.told().number
    }

    fn layer(&self) -> Layer
        ensures { result ≡ (told self.now).layer }
    {
        self.told().layer
    }

    fn place(&self) -> usize
        ensures { result ≡ (told self.now).place }
    {
        self.told().place
    }
}

impl Fault for DiskFault {
    ghost told = { disk_told };

    fn told(&self) -> Told {
        let (number, place) = match *self {
            DiskFault::PowerGone(Some(block)) => (20, block as usize),
            DiskFault::PowerGone(None) => (20, NO_BLOCK),
            DiskFault::NoSuchBlock(block) => (21, block as usize),
        };
        Told {
            number,
            layer: Layer::Disk,
            place,
        }
    }
}

pub trait Disk {
    // what each block reads
    ghost reads: { Self → List Content };
    // what may stand in a block after the power is lost
    ghost may: { Self → ℕ → Content → Type 0 };
    // whether the power is off
    ghost gone: { Self → Bool };
    // that a call with its answer took the disk from one state to the next
    ghost did: { Self → Call → Self → Type 0 };

    fn size(&self) -> usize
        ensures { result ≡ length (reads self.now) };

    fn read(&mut self, block: u32) -> Result<Content, DiskFault>
        ensures { did self.old (reading block result) self.new };

    fn write(&mut self, block: u32, bytes: [u8; 32]) -> Result<(), DiskFault>
        ensures { did self.old (writing block bytes result) self.new };

    fn flush(&mut self) -> Result<(), DiskFault>
        ensures { did self.old (flushing result) self.new };

    // a block's set holds what it reads
    ghost stands: { (d : Self) (k : ℕ) → k < length (reads d) → may d k (slice_index_or (reads d) k Unreadable) };

    // every call keeps the power rule
    ghost keeps: { (d : Self) (c : Call) (e : Self) → did d c e → Allowed reads may gone d c e };
}

// A layer on any disk: it passes on `left` calls with good block numbers, and answers 20 from then on.
#[derive(Drop)]
pub struct Stop<D> {
    disk: D,
    left: u32,
}

impl<D: Disk> Stop<D> {
    pub fn new(disk: D, left: u32) -> Stop<D>
        ensures { result ≡ record { disk = disk; left = left } }
    {
        Stop { disk, left }
    }

    // Counts a call that is passed on, and refuses it where none is left.
    fn count(&mut self, block: Option<u32>) -> Result<(), DiskFault>
        ensures answer { result ≡ counted self.old.left block }
        ensures after { self.new ≡ record { disk = self.old.disk; left = self.old.left - 1 } }
    {
        if self.left == 0 {
            return Err(DiskFault::PowerGone(block));
        }
        self.left -= 1;
        Ok(())
    }

    // The same for a call that names a block, which is refused first where its number is bad.
    fn find(&mut self, block: u32) -> Result<(), DiskFault>
        ensures answer { result ≡ found (length (D.Disk.reads self.old.disk)) self.old.left block }
        ensures after { self.new ≡ record { disk = self.old.disk; left = left_found (length (D.Disk.reads self.old.disk)) self.old.left block } }
    {
        if block as usize >= self.size() {
            return Err(DiskFault::NoSuchBlock(block));
        }
        self.count(Some(block))
    }

    // The disk below.
    pub fn into_disk(self) -> D
        ensures { result ≡ self.disk }
    {
        self.disk
    }
}

impl<D: Disk> Disk for Stop<D> {
    ghost reads = { λ s. D.Disk.reads s.disk };

    ghost may = { λ s. D.Disk.may s.disk };

    ghost gone = { λ s. stop_gone s.left (D.Disk.gone s.disk) };

    ghost did = { λ s c t. Stopped D.Disk.reads D.Disk.did s.disk s.left c t.disk t.left };

    ghost stands = { Prim.search rules };

    ghost keeps = { λ d c e h. stop_keeps D.Disk.reads D.Disk.may D.Disk.gone (λ s. s.disk) (λ s. s.left) D.Disk.did D.Disk.keeps d c e h };

    fn size(&self) -> usize {
        self.disk.size()
    }

    fn read(&mut self, block: u32) -> Result<Content, DiskFault> {
        self.find(block)?;
        self.disk.read(block)
    }

    fn write(&mut self, block: u32, bytes: [u8; 32]) -> Result<(), DiskFault> {
        self.find(block)?;
        self.disk.write(block, bytes)
    }

    fn flush(&mut self) -> Result<(), DiskFault> {
        self.count(None)?;
        self.disk.flush()
    }
}

// One make of disk or another.
#[derive(Drop)]
pub enum Either<A, B> {
    First(A),
    Second(B),
}

impl<A: Disk, B: Disk> Disk for Either<A, B> {
    ghost reads = { either A.Disk.reads B.Disk.reads };

    ghost may = { either A.Disk.may B.Disk.may };

    ghost gone = { either A.Disk.gone B.Disk.gone };

    ghost did = { EitherDid A.Disk.did B.Disk.did };

    ghost stands = { λ d k lt. either_stands A.Disk.reads A.Disk.may A.Disk.gone A.Disk.did B.Disk.reads B.Disk.may B.Disk.gone B.Disk.did A.Disk.stands B.Disk.stands d k lt };

    ghost keeps = { λ d c e h. either_keeps A.Disk.reads A.Disk.may A.Disk.gone A.Disk.did B.Disk.reads B.Disk.may B.Disk.gone B.Disk.did A.Disk.keeps B.Disk.keeps d c e h };

    fn size(&self) -> usize {
        match self {
            Either::First(disk) => disk.size(),
            Either::Second(disk) => disk.size(),
        }
    }

    fn read(&mut self, block: u32) -> Result<Content, DiskFault> {
        match self {
            Either::First(disk) => disk.read(block),
            Either::Second(disk) => disk.read(block),
        }
    }

    fn write(&mut self, block: u32, bytes: [u8; 32]) -> Result<(), DiskFault> {
        match self {
            Either::First(disk) => disk.write(block, bytes),
            Either::Second(disk) => disk.write(block, bytes),
        }
    }

    fn flush(&mut self) -> Result<(), DiskFault> {
        match self {
            Either::First(disk) => disk.flush(),
            Either::Second(disk) => disk.flush(),
        }
    }
}

// A block of a settling disk: its settled content, and the newest one where that waits for a flush.
#[derive(Clone, Copy)]
pub struct Cell {
    pub settled: Content,
    pub waiting: Option<Content>,
}

impl Cell {
    // A cell that holds one content, and does not wait.
    pub fn still(content: Content) -> Cell
        ensures { result ≡ still content }
    {
        Cell {
            settled: content,
            waiting: None,
        }
    }

    // A still cell with 32 zero bytes.
    pub fn blank() -> Cell
        ensures { result ≡ still zeros }
    {
        Cell::still(Content::Bytes([0; 32]))
    }

    fn read(self) -> Content
        ensures { result ≡ read_cell self }
    {
        self.waiting.unwrap_or(self.settled)
    }

    fn after_write(self, bytes: [u8; 32]) -> Cell
        ensures { result ≡ written self bytes }
    {
        Cell {
            waiting: Some(Content::Bytes(bytes)),
            ..self
        }
    }

    fn after_flush(self) -> Cell
        ensures { result ≡ settle_cell self }
    {
        Cell::still(self.read())
    }

    fn after_loss(self, letter: Option<u8>) -> Cell
        ensures { result ≡ lost_cell (unwrap_or letter 0) self }
    {
        match (self.waiting, letter) {
            (Some(newest), Some(b'n')) => Cell::still(newest),
            (Some(_), Some(b'u')) => Cell::still(Content::Unreadable),
            _ => Cell::still(self.settled),
        }
    }
}

// Makes every cell still, with 32 zero bytes in it: a settling disk over them is blank.
pub fn blank(cells: &mut [Cell])
    ensures is { cells.new ≡ blank_cells (length cells.old) }
    ensures blank { Blank read_all May cells.new }
{
    cells.fill(Cell::blank());
}

// Cells that somebody owns or lends.
pub trait Cells {
    ghost held: { Self → List Cell };

    fn len(&self) -> usize
        ensures { result ≡ length (held self.now) };

    fn at(&self, k: usize) -> Option<Cell>
        ensures { result ≡ slice_get (held self.now) k };

    // Past the end nothing is put.
    fn put(&mut self, k: usize, cell: Cell)
        ensures { held self.new ≡ slice_set (held self.old) k cell };
}

fn put_in(cells: &mut [Cell], k: usize, cell: Cell)
    ensures { cells.new ≡ slice_set cells.old k cell }
{
    if k < cells.len() {
        cells[k] = cell;
    }
}

// Lent cells.
#[derive(Drop)]
pub struct Lent<'a> {
    cells: &'a mut [Cell],
}

impl<'a> Lent<'a> {
    pub fn new(cells: &'a mut [Cell]) -> Lent<'a>
        ensures held { result.cells.now ≡ cells.old }
        ensures same { result.cells.ghost_name ≡ cells.entry.ghost_name }
    {
        Lent { cells }
    }
}

impl<'a> Cells for Lent<'a> {
    ghost held = { λ s. s.cells.now };

    fn len(&self) -> usize {
        self.cells.len() // the lender has no others
    }

    fn at(&self, k: usize) -> Option<Cell> {
        self.cells.get(k).copied()
    }

    fn put(&mut self, k: usize, cell: Cell) {
        put_in(self.cells, k, cell);
    }
}

// Cells that are owned.
impl<const N: usize> Cells for [Cell; N] {
    ghost held = { λ s. s };

    fn len(&self) -> usize {
        N // each of them holds a block
    }

    fn at(&self, k: usize) -> Option<Cell> {
        self.get(k).copied()
    }

    fn put(&mut self, k: usize, cell: Cell) {
        put_in(self, k, cell);
    }
}

// A disk over cells: a write stores the newest content, and a flush settles all. It never answers 20.
#[derive(Drop)]
pub struct Settling<C> {
    cells: C,
}

impl<C: Cells> Settling<C> {
    pub fn new(cells: C) -> Settling<C>
        ensures is { result ≡ record { cells = cells } }
        ensures blank { (n : ℕ) → C.Cells.held cells ≡ blank_cells n → Blank (λ s. read_all (C.Cells.held s.cells)) (λ s. May (C.Cells.held s.cells)) result }
    {
        Settling { cells }
    }

    // The cells below.
    pub fn into_cells(self) -> C
        ensures { result ≡ self.cells }
    {
        let Settling { cells: below } = self;
        below
    }

    // Every cell becomes what `by` makes of its number and of it.
    fn change_all<F: Fn(usize, Cell) -> Cell>(&mut self, by: F)
        requires { F.IsAlwaysCallable by }
        ensures { (f : ℕ → Cell → Cell) → ((k : ℕ) (a r : Cell) → F.post by k a r → r ≡ f k a) → C.Cells.held self.new.cells ≡ changed f 0 (C.Cells.held self.old.cells) }
    {
        for k in 0..self.cells.len() {
            if let Some(cell) = self.cells.at(k) {
                self.cells.put(k, by(k, cell));
            }
        }
    }

    // A loss of power, with a letter a block: at a waiting block n keeps the newest, u makes it unreadable, any other or none keeps the settled. Then nothing waits.
    pub fn lose(&mut self, letters: &[u8])
        ensures is { C.Cells.held self.new.cells ≡ lost letters.now (C.Cells.held self.old.cells) }
        ensures after { AfterLoss (λ s. read_all (C.Cells.held s.cells)) (λ s. May (C.Cells.held s.cells)) self.old self.new }
    {
        self.change_all(|k, cell| cell.after_loss(letters.get(k).copied()));
    }

    fn settle(&mut self)
        ensures { C.Cells.held self.new.cells ≡ map settle_cell (C.Cells.held self.old.cells) }
    {
        self.change_all(|_, cell| cell.after_flush());
    }
}

impl<C: Cells> Disk for Settling<C> {
    ghost reads = { λ s. read_all (C.Cells.held s.cells) };

    ghost may = { λ s. May (C.Cells.held s.cells) };

    ghost gone = { λ _. false };

    ghost did = { λ s c t. Went (C.Cells.held s.cells) c (C.Cells.held t.cells) };

    ghost stands = { λ d k lt. settling_stands (λ s. C.Cells.held s.cells) d k lt };

    ghost keeps = { λ d c e h. settling_keeps (λ s. C.Cells.held s.cells) d c e h };

    fn size(&self) -> usize {
        self.cells.len() // a cell is a block
    }

    fn read(&mut self, block: u32) -> Result<Content, DiskFault> {
        let cell = self.cells.at(block as usize);
        cell.map(Cell::read).ok_or(DiskFault::NoSuchBlock(block))
    }

    fn write(&mut self, block: u32, bytes: [u8; 32]) -> Result<(), DiskFault> {
        let k = block as usize;
        let cell = self.cells.at(k).ok_or(DiskFault::NoSuchBlock(block))?;
        self.cells.put(k, cell.after_write(bytes));
        Ok(())
    }

    fn flush(&mut self) -> Result<(), DiskFault> {
        self.settle();
        Ok(())
    }
}
