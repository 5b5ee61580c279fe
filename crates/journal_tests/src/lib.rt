// What the journal reads and answers on small disks.
#![tactic(auto)]

#[cfg(test)]
mod tests {
    use boundary::{Edit, Point};
    use disk::{Cell, Content, Fault, Layer, Lent, Settling};
    use faults::JournalFault;
    use journal::{Draft, Extent};
    use records::Record;
    use std::process::Abort;
    use std::test::Fail;

    const MVFS: Edit = Edit::Mvfs {
        shell: 0,
        face: 0,
        outer: 0,
        vertex: 0,
        at: Point { x: 0, y: 0, z: 0 },
    };

    const MOVE: Edit = Edit::Move {
        vertex: 0,
        at: Point { x: 1, y: 2, z: 3 },
    };

    fn laid(record: Record) -> Cell {
        Cell::still(Content::Bytes(records::encode(record)))
    }

    fn change(number: u32, position: u16, edit: Edit) -> Cell {
        laid(Record::Change {
            number,
            position,
            edit,
        })
    }

    fn closing(number: u32, count: u16) -> Cell {
        laid(Record::Closing { number, count })
    }

    fn unreadable() -> Cell {
        Cell::still(Content::Unreadable)
    }

    fn read(cells: &mut [Cell]) -> Result<Extent, JournalFault> {
        let mut disk = Settling::new(Lent::new(cells));
        let (_, read) = journal::read(&mut disk);
        read
    }

    // Reads the journal, and appends so many edits to it: mvfs, and then moves of its vertex.
    fn append(cells: &mut [Cell], count: u8) -> Result<Extent, JournalFault> {
        let mut disk = Settling::new(Lent::new(cells));
        let (_, read) = journal::read(&mut disk);
        let mut draft = Draft::new();
        let mut edit = MVFS;
        for _ in 0..count {
            let _ = draft.push(edit);
            edit = MOVE;
        }
        journal::append(&mut disk, read?, &draft)
    }

    fn stands(
        rt: &impl Abort,
        answer: Result<Extent, JournalFault>,
        batches: u32,
        tail: u16,
    ) -> Result<(), Fail> {
        match answer {
            Ok(extent) => {
                assert_eq!(rt; extent.batches, batches);
                assert_eq!(rt; extent.tail, tail);
                Ok(())
            }
            Err(fault) => Err(Fail::new(fault.number())),
        }
    }

    fn refused(
        rt: &impl Abort,
        answer: Result<Extent, JournalFault>,
        number: u32,
        place: usize,
    ) -> Result<(), Fail> {
        match answer {
            Ok(_) => Err(Fail::new("not refused")),
            Err(fault) => {
                assert_eq!(rt; fault.number(), number);
                assert_eq!(rt; fault.place(), place);
                assert_eq!(rt; fault.layer(), Layer::Journal);
                Ok(())
            }
        }
    }

    // Sixteen edits and the closing record take seventeen blocks.
    #[test]
    fn sixteen_edits(rt: HostRuntime) -> Result<(), Fail> {
        let mut cells = [Cell::blank(); 17];
        stands(&rt, append(&mut cells, 16), 1, 17)?;
        stands(&rt, read(&mut cells), 1, 17)?;
        refused(&rt, append(&mut [Cell::blank(); 16], 16), 7, 0)
    }

    #[test]
    fn seventeenth_edit(rt: HostRuntime) -> Result<(), Fail> {
        let mut draft = Draft::new();
        for _ in 0..16 {
            let _ = draft.push(MVFS);
        }
        match draft.push(MVFS) {
            Ok(_) => Err(Fail::new("not refused")),
            Err(fault) => {
                assert_eq!(rt; fault.number(), 5);
                assert_eq!(rt; fault.place(), 16);
                Ok(())
            }
        }
    }

    // Behind a batch in blocks 0 and 1, in a disk of three blocks.
    #[test]
    fn behind_a_batch(rt: HostRuntime) -> Result<(), Fail> {
        let mut cells = [change(1, 0, MVFS), closing(1, 1), Cell::blank()];
        refused(&rt, append(&mut cells, 0), 6, 2)?;
        refused(&rt, append(&mut cells, 1), 7, 2)
    }

    #[test]
    fn counts_of_blocks(rt: HostRuntime) -> Result<(), Fail> {
        refused(&rt, read(&mut [Cell::blank(); 1]), 10, 1)?;
        refused(&rt, read(&mut [Cell::blank(); 1001]), 10, 1001)?;
        stands(&rt, read(&mut [Cell::blank(); 1000]), 0, 0)?;
        stands(&rt, read(&mut [Cell::blank(); 2]), 0, 0)
    }

    // A batch without its closing record, since that block is unreadable or has an unused byte set.
    #[test]
    fn batch_not_whole(rt: HostRuntime) -> Result<(), Fail> {
        stands(&rt, read(&mut [change(1, 0, MVFS), unreadable()]), 0, 0)?;
        let mut bytes = records::encode(Record::Closing {
            number: 1,
            count: 1,
        });
        stands(
            &rt,
            read(&mut [change(1, 0, MVFS), Cell::still(Content::Bytes(bytes))]),
            1,
            2,
        )?;
        bytes[31] = 1;
        stands(
            &rt,
            read(&mut [change(1, 0, MVFS), Cell::still(Content::Bytes(bytes))]),
            0,
            0,
        )
    }

    // Two batches stand, unless the second is numbered 3 or an unreadable block lies between them.
    #[test]
    fn two_batches(rt: HostRuntime) -> Result<(), Fail> {
        let first = change(1, 0, MVFS);
        let end = closing(1, 1);
        stands(
            &rt,
            read(&mut [first, end, change(2, 0, MOVE), closing(2, 1)]),
            2,
            4,
        )?;
        stands(
            &rt,
            read(&mut [first, end, change(3, 0, MOVE), closing(3, 1)]),
            1,
            2,
        )?;
        stands(
            &rt,
            read(&mut [first, end, unreadable(), change(2, 0, MOVE), closing(2, 1)]),
            1,
            2,
        )
    }

    // The second batch is in blocks 2 to 4, and its edit 1, in block 3, makes what is there already.
    #[test]
    fn refused_edit(rt: HostRuntime) -> Result<(), Fail> {
        let mut cells = [
            change(1, 0, MVFS),
            closing(1, 1),
            change(2, 0, MOVE),
            change(2, 1, MVFS),
            closing(2, 2),
        ];
        let answer = read(&mut cells);
        refused(&rt, answer, 30, 3)?;
        let Err(JournalFault::Unfit(_, why)) = answer else {
            return Err(Fail::new("another fault"));
        };
        assert_eq!(rt; why.number(), 2);
        assert_eq!(rt; why.place(), 1);
        Ok(())
    }
}
