// Learning an entry into a book.
ghost use Rattle.std.specs.Prelude.{◌≡◌, ◌+◌, ◌*◌, ◌≤◌, length, IfOk, OnErr};
ghost use Rattle.condition.specs.Store.{count};
ghost use Rattle.book_file.specs.Entries.{with_new, EntryTold, EntryLearned};

use crate::{Book, Entry};
use condition::{MOST_NODES, Refusal};
use learn::learn;
use std::alloc::{AllocError, Global};

impl Book {
    // Puts an entry's nodes behind those of the book, learns its node, and gives the place of the node that is what is known then. A refused
    // entry leaves the book as it was, without its nodes.
    pub fn learn(&mut self, heap: Global, entry: &Entry) -> Result<u64, Refusal>
        ensures refusal { EntryTold self.old.lists.items self.old.nodes.items entry.now.nodes.items entry.now.node result }
        ensures kept { OnErr result ((self.new.lists.items ≡ self.old.lists.items) × (self.new.nodes.items ≡ self.old.nodes.items)) }
        ensures learned { IfOk result (EntryLearned self.old.lists.items self.old.nodes.items entry.now.nodes.items entry.now.node self.new.lists.items self.new.nodes.items) }
    {
        let room = MOST_NODES - self.nodes[0];
        if entry.nodes[0] >= room {
            return Err(Refusal::StoreFull(room));
        }
        let mut lists = Vec::from_slice(heap, &self.lists)?;
        let mut nodes = with_new(heap, &self.nodes, &entry.nodes)?;
        learn(heap, &mut lists, &mut nodes, entry.node)?;
        let known = lists[1];
        *self = Book { lists, nodes };
        Ok(known)
    }
}

// A store with new nodes behind those that stand, and room for one node more.
fn with_new(heap: Global, nodes: &[u64], new: &[u64]) -> Result<Vec<u64>, AllocError>
    requires nodes { 1 ≤ length nodes.now }
    requires new { 1 ≤ length new.now }
    requires few { count nodes.now + count new.now ≤ 131072 }
    ensures { IfOk result (λ v. v.items ≡ with_new nodes.now new.now) }
{
    let mut all = Vec::new(heap);
    all.push(nodes[0] + new[0])?;
    all.extend_from_slice(&nodes[1..])?;
    all.extend_from_slice(&new[1..])?;
    all.extend_from_slice(&[0; 5])?;
    Ok(all)
}
