// A record of the journal as a block of 32 bytes.
#![tactic(auto)]

ghost use Rattle.std.specs.Prelude.{◌≡◌, ◌+◌, ◌<◌, ◌≤◌, ◌++◌, ◌∷◌, [], map, Some, None, length, take, drop, slice_range};
ghost use Rattle.records.specs.Blocks.{two, four, complement, laid, two_at, four_at, fields_at, point_at};
ghost use Rattle.records.specs.Examples.{Worked};
ghost use Rattle.records.specs.Laws.{Fit, IsRecord, Parted, RecordsStand};
ghost use Rattle.records.specs.Records.{kind_of, numbers_of, point_of, block_of, bytes_of, used_fields, has_point, zero_past, rest_zero, edit_of, numbered, record_of};
ghost use Rattle.records.specs.declared.Record.{Record};

use boundary::{Edit, Point, named};

// An edit at its position in a batch, or the end of a batch with its count of edits.
#[derive(Clone, Copy)]
pub enum Record {
    Change {
        number: u32,
        position: u16,
        edit: Edit,
    },
    Closing {
        number: u32,
        count: u16,
    },
}

// The parts of a block, whatever they say. In a record `spare` and `gap` are zero.
#[derive(Clone, Copy)]
struct Block {
    kind: u8,
    spare: u8,
    number: u32,
    position: u16,
    fields: [u16; 5],
    gap: u16,
    at: Point,
}

const ORIGIN: Point = Point { x: 0, y: 0, z: 0 };

const CLOSING: u8 = 100;

// The kind of the block of an edit.
fn kind_of(edit: Edit) -> u8
    ensures { result ≡ kind_of edit }
{
    match edit {
        Edit::Mvfs { .. } => 1,
        Edit::Kvfs { .. } => 2,
        Edit::Mev { .. } => 3,
        Edit::Kev { .. } => 4,
        Edit::Mef { .. } => 5,
        Edit::Kef { .. } => 6,
        Edit::Kemr { .. } => 7,
        Edit::Mekr { .. } => 8,
        Edit::Kfmrh { .. } => 9,
        Edit::Move { .. } => 10,
    }
}

// The numbers of an edit, in the order of its operator, and then zeros.
fn numbers_of(edit: Edit) -> [i32; 5]
    ensures { result ≡ numbers_of edit }
{
    match edit {
        Edit::Mvfs {
            shell,
            face,
            outer,
            vertex,
            ..
        } => [shell, face, outer, vertex, 0],
        Edit::Kvfs { shell } => [shell, 0, 0, 0, 0],
        Edit::Mev {
            place,
            edge,
            vertex,
            ..
        } => [place, edge, vertex, 0, 0],
        Edit::Kev { half } => [half, 0, 0, 0, 0],
        Edit::Mef {
            from,
            to,
            edge,
            face,
            outer,
        } => [from, to, edge, face, outer],
        Edit::Kef { half } => [half, 0, 0, 0, 0],
        Edit::Kemr { half, inner } => [half, inner, 0, 0, 0],
        Edit::Mekr { to, inner, edge } => [to, inner, edge, 0, 0],
        Edit::Kfmrh { kept, killed } => [kept, killed, 0, 0, 0],
        Edit::Move { vertex, .. } => [vertex, 0, 0, 0, 0],
    }
}

fn point_of(edit: Edit) -> Point
    ensures { result ≡ point_of edit }
{
    match edit {
        Edit::Mvfs { at, .. } | Edit::Mev { at, .. } | Edit::Move { at, .. } => at,
        _ => ORIGIN,
    }
}

// Writes the bytes `part` from the byte `i` on.
fn put(bytes: &mut [u8; 32], i: usize, part: &[u8])
    requires { i + length part.now ≤ 32 }
    ensures { bytes.new ≡ take i bytes.old ++ (part.now ++ drop (i + length part.now) bytes.old) }
{
    bytes[i..i + part.len()].copy_from_slice(part);
}

// Each field in two bytes, low byte first.
fn field_bytes(fields: [u16; 5]) -> [[u8; 2]; 5]
    ensures { result ≡ map two fields }
{
    fields.map(u16::to_le_bytes)
}

// Each coordinate in four bytes, low byte first.
fn point_bytes(at: Point) -> [[u8; 4]; 3]
    ensures { result ≡ four (complement at.x) ∷ four (complement at.y) ∷ four (complement at.z) ∷ [] }
{
    let x = at.x.to_le_bytes();
    let y = at.y.to_le_bytes();
    let z = at.z.to_le_bytes();
    [x, y, z]
}

// The `N` bytes from the byte `i` on.
fn bytes_at<const N: usize>(bytes: &[u8; 32], i: usize) -> [u8; N]
    requires { i + N ≤ 32 }
    ensures { result ≡ slice_range bytes.now i (i + N) }
{
    bytes[i..i + N].try_into().unwrap()
}

fn two_at(bytes: &[u8; 32], i: usize) -> u16
    requires { i < 31 }
    ensures { result ≡ two_at bytes.now i }
{
    u16::from_le_bytes(bytes_at(bytes, i))
}

fn four_at(bytes: &[u8; 32], i: usize) -> u32
    requires { i < 29 }
    ensures { result ≡ four_at bytes.now i }
{
    u32::from_le_bytes(bytes_at(bytes, i))
}

fn fields_at(bytes: &[u8; 32]) -> [u16; 5]
    ensures { result ≡ fields_at bytes.now }
{
    [
        two_at(bytes, 8),
        two_at(bytes, 10),
        two_at(bytes, 12),
        two_at(bytes, 14),
        two_at(bytes, 16),
    ]
}

fn point_at(bytes: &[u8; 32]) -> Point
    ensures { result ≡ point_at bytes.now }
{
    let coordinate = |i| four_at(bytes, i).cast_signed();
    Point {
        x: coordinate(20),
        y: coordinate(24),
        z: coordinate(28),
    }
}

// How many of the fields a kind uses.
fn used_fields(kind: u8) -> usize
    ensures { result ≡ used_fields kind }
{
    match kind {
        1 => 4,
        3 | 8 => 3,
        5 => 5,
        7 | 9 => 2,
        CLOSING => 0,
        _ => 1,
    }
}

// Whether a kind uses the coordinates.
fn has_point(kind: u8) -> bool
    ensures { result ≡ has_point kind }
{
    matches!(kind, 1 | 3 | 10)
}

// Whether the fields past the first `count` are zero.
fn zero_past(count: usize, fields: [u16; 5]) -> bool
    ensures { result ≡ zero_past count fields }
{
    fields.iter().skip(count).all(|field| *field == 0)
}

impl Block {
    // The block of a record.
    fn of(record: Record) -> Block
        ensures { result ≡ block_of «record» }
    {
        match record {
            Record::Change {
                number,
                position,
                edit,
            } => Block {
                kind: kind_of(edit),
                spare: 0,
                number,
                position,
                fields: numbers_of(edit).map(named),
                gap: 0,
                at: point_of(edit),
            },
            Record::Closing { number, count } => {
                Block {
                    kind: CLOSING,
                    spare: 0,
                    number,
                    position: count,
                    fields: [0; 5],
                    gap: 0,
                    at: ORIGIN,
                }
            }
        }
    }

    // The block that the bytes say.
    fn read(bytes: &[u8; 32]) -> Block
        ensures { Parted bytes.now result }
    {
        Block {
            kind: bytes[0],
            spare: bytes[1],
            number: four_at(bytes, 2),
            position: two_at(bytes, 6),
            fields: fields_at(bytes),
            gap: two_at(bytes, 18),
            at: point_at(bytes),
        }
    }

    // The batch number in four bytes and the position in two, low byte first.
    fn place_bytes(self) -> [u8; 6]
        ensures { result ≡ four self.number ++ two self.position }
    {
        let n = self.number.to_le_bytes();
        let p = self.position.to_le_bytes();
        [n[0], n[1], n[2], n[3], p[0], p[1]]
    }

    // The bytes of the parts, each low byte first.
    fn bytes(self) -> [u8; 32]
        ensures { result ≡ laid self }
    {
        let fields = field_bytes(self.fields);
        let point = point_bytes(self.at);
        let mut bytes = [0; 32];
        bytes[0] = self.kind;
        bytes[1] = self.spare;
        put(&mut bytes, 2, &self.place_bytes());
        put(&mut bytes, 8, fields.as_flattened());
        put(&mut bytes, 18, &self.gap.to_le_bytes());
        put(&mut bytes, 20, point.as_flattened());
        bytes
    }

    // Whether all that its kind does not use is zero.
    fn rest_is_zero(self) -> bool
        ensures { result ≡ rest_zero self }
    {
        self.spare == 0
            && self.gap == 0
            && zero_past(used_fields(self.kind), self.fields)
            && (has_point(self.kind) || self.at == ORIGIN)
    }

    // Whether the block has a batch number, and a position from `first` to `last`.
    fn is_numbered(self, first: u16, last: u16) -> bool
        ensures { result ≡ numbered first last self }
    {
        1 <= self.number && (first..=last).contains(&self.position)
    }

    // The edit of the block, whose kind is from 1 to 10.
    fn edit(self) -> Edit
        ensures { result ≡ edit_of self.kind self.fields self.at }
    {
        let at = self.at;
        let [a, b, c, d, e] = self.fields.map(i32::from);
        match self.kind {
            1 => Edit::Mvfs {
                shell: a,
                face: b,
                outer: c,
                vertex: d,
                at,
            },
            2 => Edit::Kvfs { shell: a },
            3 => Edit::Mev {
                place: a,
                edge: b,
                vertex: c,
                at,
            },
            4 => Edit::Kev { half: a },
            5 => Edit::Mef {
                from: a,
                to: b,
                edge: c,
                face: d,
                outer: e,
            },
            6 => Edit::Kef { half: a },
            7 => Edit::Kemr { half: a, inner: b },
            8 => Edit::Mekr {
                to: a,
                inner: b,
                edge: c,
            },
            9 => Edit::Kfmrh { kept: a, killed: b },
            _ => Edit::Move { vertex: a, at },
        }
    }
}

// The block of a record.
pub fn encode(record: Record) -> [u8; 32]
    ensures is { result ≡ bytes_of «record» }
    ensures back { Fit «record» → record_of result ≡ Some «record» }
{
    Block::of(record).bytes()
}

// The record that a block is, if it is one.
pub fn decode(bytes: &[u8; 32]) -> Option<Record>
    ensures is { result ≡ record_of bytes.now }
    ensures back { elim result [ None ↦ Unit {0} | Some x ↦ IsRecord bytes.now x ] }
{
    let block = Block::read(bytes);
    match block.kind {
        1..=10 if block.is_numbered(0, 15) && block.rest_is_zero() => {
            Some(Record::Change {
                number: block.number,
                position: block.position,
                edit: block.edit(),
            })
        }
        CLOSING if block.is_numbered(1, 16) && block.rest_is_zero() => {
            Some(Record::Closing {
                number: block.number,
                count: block.position,
            })
        }
        _ => None,
    }
}

// What encoding and decoding are to each other; the function is proved only where the laws are.
pub fn records_stand()
    ensures { RecordsStand }
{}

// What some blocks come to, computed from the definitions.
pub fn worked_blocks()
    ensures { Worked }
{}
