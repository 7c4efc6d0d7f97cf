// Learning: what is known grows by the condition of a node.
ghost use Rattle.std.specs.Prelude.{◌≡◌, OnErr, OnOk};
ghost use Rattle.learn.specs.Learning.{LearnTold, Learnable, Learned, Placed};

use condition::{Node, Refusal, add, room};
use decide::decide_row;
use list::check;
use std::alloc::Global;

// What is known becomes both of what was known and the condition of a node that stands. A refusal leaves both slices as they were; want
// of memory is told only where no other refusal but 10 applies.
pub fn learn(heap: Global, lists: &mut [u64], nodes: &mut [u64], new: u64) -> Result<(), Refusal>
    ensures refusal { LearnTold lists.old nodes.old new result }
    ensures kept { OnErr result ((lists.new ≡ lists.old) × (nodes.new ≡ nodes.old)) }
    ensures learned { OnOk result (Learned lists.old nodes.old new lists.new nodes.new) }
    ensures placed { OnOk result (Placed lists.old nodes.old new lists.new nodes.new) }
{
    check_new(heap, lists, nodes, new)?;
    let known = add(nodes, Node::Both(lists[1], new));
    lists[1] = known;
    Ok(())
}

// Whether a node can be learned, or why not.
fn check_new(heap: Global, lists: &[u64], nodes: &[u64], new: u64) -> Result<(), Refusal>
    ensures refusal { LearnTold lists.now nodes.now new result }
    ensures learnable { OnOk result (Learnable lists.now nodes.now new) }
{
    check(lists, nodes)?;
    if new >= nodes[0] {
        return Err(Refusal::NoSuchNode(8));
    }
    if room(nodes)? == 0 {
        return Err(Refusal::StoreFull(0));
    }
    // As the only line of an answer without columns the condition gives one row: possible exactly if some filling fits both.
    let standing = decide_row(heap, lists, nodes, &[new], 1, 0, &[])?;
    if !standing.is_possible() {
        return Err(Refusal::WouldNotFit(new));
    }
    Ok(())
}
