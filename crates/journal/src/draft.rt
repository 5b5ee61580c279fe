// The edits of a batch that is not whole yet.
ghost use Rattle.std.specs.Prelude.{◌≤◌};

use boundary::Edit;
use faults::{MOST, SolidFault};

// Stands where a draft has no edit yet.
const NO_EDIT: Edit = Edit::Kvfs { shell: 0 };

// At most sixteen edits: the first `len` of the array.
#[derive(Clone, Copy)]
pub struct Draft {
    edits: [Edit; MOST],
    len: usize,
    ghost few: { len ≤ 16 },
}

impl Draft {
    ghost use Rattle.std.specs.Prelude.{◌≡◌, [], length};
    ghost use Rattle.journal.specs.Drafts.{drafted, push_answer, with_edit};

    pub fn new() -> Draft
        ensures { drafted result ≡ [] }
    {
        Draft {
            edits: [NO_EDIT; MOST],
            len: 0,
        }
    }

    // The edits, in order.
    pub fn edits(&self) -> &[Edit]
        ensures is { result.now ≡ drafted self.now }
        ensures few { length result.now ≤ 16 }
    {
        &self.edits[..self.len]
    }

    // The position of one edit more; there is none behind sixteen.
    pub fn room(&self) -> Result<u32, SolidFault>
        ensures { result ≡ push_answer (drafted self.now) }
    {
        if self.len < MOST {
            Ok(self.len as u32)
        } else {
            Err(SolidFault::TooMany)
        }
    }

    // One edit more, which answers its position; a seventeenth is refused.
    pub fn push(&mut self, edit: Edit) -> Result<u32, SolidFault>
        ensures answer { result ≡ push_answer (drafted self.old) }
        ensures left { drafted self.new ≡ with_edit (drafted self.old) edit }
    {
        let position = self.room()?;
        self.edits[self.len] = edit;
        self.len += 1;
        Ok(position)
    }
}
