// An entry: new nodes, and a node whose condition is learned.
ghost use Rattle.std.specs.Prelude.{◌≡◌, ◌+◌, ◌*◌, ◌^◌, ◌<◌, ◌≤◌, length};
ghost use Rattle.condition.specs.Store.{count};
ghost use Rattle.file_bytes.specs.Numbers.{AllBelow};

use condition::Refusal;
use file_bytes::{Input, read_nodes};
use std::alloc::Global;

// The count of the new nodes and the nodes, which are to stand behind those of a book; and the place of the node that is learned.
#[derive(Drop)]
pub struct Entry {
    pub nodes: Vec<u64>,
    pub node: u64,
    pub ghost few: { count nodes.items ≤ 255 },
    pub ghost whole: { length nodes.items ≡ 1 + 5 * count nodes.items },
    pub ghost small_nodes: { AllBelow (2 ^ 32) nodes.items },
    pub ghost small: { node < 2 ^ 32 },
}

impl Entry {
    ghost use Rattle.std.specs.Prelude.{IfErr, IfOk};
    ghost use Rattle.book_file.specs.Entries.{EntryRead, EntryCut};

    // The next entry: one byte for how many new nodes, the nodes, and the node that is learned.
    pub fn read(heap: Global, input: &mut Input) -> Result<Entry, Refusal>
        ensures read { IfOk result (λ e. EntryRead input.old.rest.now e.nodes.items e.node input.new.rest.now) }
        ensures cut { IfErr result (EntryCut input.old.rest.now) }
    {
        let count = u64::from(input.byte().ok_or(Refusal::BadStore(0))?);
        let nodes = read_nodes(heap, input, count)?;
        let node = input.number().ok_or(Refusal::NoSuchNode(8))?;
        Ok(Entry { nodes, node })
    }
}
