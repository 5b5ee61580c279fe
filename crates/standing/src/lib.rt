// What stands in a journal, and what lost power leaves of it. Where a function has a theorem as its contract, it is proved only where the theorem is.
#![tactic(auto)]

ghost use Rattle.std.specs.Prelude.{◌≡◌, ◌≤◌, List, length, Option};
ghost use Rattle.boundary.specs.declared.Edit.{Edit};
ghost use Rattle.disk.specs.declared.Content.{Content};
ghost use Rattle.standing.specs.Examples.{Worked};
ghost use Rattle.standing.specs.Journals.{Kept, Left};
ghost use Rattle.standing.specs.Standing.{Longest, record_in};

use disk::{Content, Disk};
use records::Record;

// The record that a block's content is, if it is one.
pub fn record_in(content: Content) -> Option<Record>
    ensures { result ≡ record_in content }
{
    match content {
        Content::Bytes(bytes) => records::decode(&bytes),
        Content::Unreadable => None,
    }
}

// What stands is the longest list of batches with whose records the blocks begin.
pub fn longest_stands()
    ensures { (cs : List Content) → Longest cs }
{}

// What appends, reads and losses of power leave of a journal that began on this disk.
pub fn cuts_leave<D: Disk>(disk: &D)
    ensures { (bs : List (List Edit)) (q : Option (List Edit)) (e : D) → length (D.Disk.reads disk.now) ≤ 1000 → Kept D.Disk.reads D.Disk.may D.Disk.did disk.now bs q e → Left D.Disk.reads D.Disk.may D.Disk.did disk.now bs q e }
{}

// What stands in small journals, computed from the definitions.
pub fn worked_cases()
    ensures { Worked }
{}
