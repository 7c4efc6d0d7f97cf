// Tidying: conditions without constants below other nodes and without comparisons that are settled.
//
// All that the conditions reach is folded into a cone, as deciding does, and what the tidy conditions reach there is copied behind the
// nodes of the store.
ghost use Rattle.std.specs.Prelude.{◌≡◌, ℕ, ◌+◌, ◌*◌, ◌<◌, ◌≤◌, true, ◌⊎◌, length, slice_index, IfOk, OnErr};
ghost use Rattle.condition.specs.Store.{count, room, room_told};
ghost use Rattle.decide.specs.Counting.{counted};
ghost use Rattle.decide.specs.Folding.{Room, PlaceOf};
ghost use Rattle.decide.specs.Reaching.{marked, Closed};
ghost use Rattle.learn.specs.Copying.{ReachedFrom, Simplified, Copies, TidiedAll};
ghost use Rattle.learn.specs.Tidying.{reached_count, one, MemoryTold, tidy_told, Tidied};

use crate::copying::copy;
use condition::{MOST_NODES, Refusal, room, store_count};
use decide::{Cone, begin, close, count_marks, index_all};
use std::alloc::Global;

// A mark for each node that a store may have.
pub(crate) type Marks = [bool; MOST_NODES as usize];

// The place of a condition without constants below other nodes and without comparisons that are settled, which holds where that of a node
// does. Nodes are only added behind those that stand. A refusal leaves the store as it was; want of memory is told only where no other
// refusal applies.
pub fn tidy(heap: Global, nodes: &mut [u64], node: u64) -> Result<u64, Refusal>
    ensures refusal { MemoryTold (tidy_told nodes.old node) result }
    ensures kept { OnErr result (nodes.new ≡ nodes.old) }
    ensures tidied { IfOk result (Tidied nodes.old node nodes.new) }
{
    let count = store_count(nodes)?;
    if node >= count {
        return Err(Refusal::NoSuchNode(8));
    }
    let roots = mark_one(node);
    let moves = tidy_marked(heap, nodes, &roots)?;
    Ok(moves.place(node))
}

// A mark for one node alone.
fn mark_one(node: u64) -> Marks
    requires { node < 131072 }
    ensures { (j : ℕ) → marked result j ≡ one node j }
{
    let mut marks = [false; MOST_NODES as usize];
    marks[node as usize] = true;
    marks
}

// Where conditions of a store went: the places that they have in a cone, and those that the cone's nodes have in the store.
#[derive(Drop)]
pub(crate) struct Moves {
    pub(crate) places: Vec<u64>,
    pub(crate) copies: Vec<u64>,
}

impl Moves {
    // Where the condition of a node went.
    pub(crate) fn place(&self, node: u64) -> u64
        requires node { node < length self.now.places.items }
        requires place { slice_index self.now.places.items node < length self.now.copies.items }
        ensures { result ≡ slice_index self.now.copies.items (slice_index self.now.places.items node) }
    {
        self.copies[self.places[node as usize] as usize]
    }
}

// Tidies the marked nodes of a store.
pub(crate) fn tidy_marked(heap: Global, nodes: &mut [u64], roots: &Marks) -> Result<Moves, Refusal>
    requires small { count nodes.old ≤ 131072 }
    requires whole { 1 + 5 * count nodes.old ≤ length nodes.old }
    ensures refusal { MemoryTold (room_told nodes.old (reached_count nodes.old (marked roots.now))) result }
    ensures kept { OnErr result (nodes.new ≡ nodes.old) }
    ensures tidied { IfOk result (λ m. TidiedAll nodes.old (marked roots.now) nodes.new m.places.items m.copies.items) }
{
    let count = nodes[0] as usize;
    let mut marks = *roots;
    close(nodes, count, &mut marks);
    let reached = count_marks(&marks, count);
    let room = room(nodes)?;
    if room < reached as u64 {
        return Err(Refusal::StoreFull(room));
    }
    let mut cone = vec![in heap; 0u64; 11 + 5 * reached]?;
    let mut places = vec![in heap; 0u64; count]?;
    let mut copies = vec![in heap; 0u64; 2 + reached]?;
    let mut index = vec![in heap; 0u64; 4 * (count + reached) + 11]?;
    move_marked(
        roots,
        &mut marks,
        nodes,
        cone.as_mut_slice(),
        index.as_mut_slice(),
        places.as_mut_slice(),
        copies.as_mut_slice(),
    );
    Ok(Moves { places, copies })
}

// Tidies marked nodes of a store, where all is marked that they reach, in scratch slices that are large enough.
fn move_marked(
    roots: &Marks,
    marks: &mut Marks,
    nodes: &mut [u64],
    cone: &mut [u64],
    index: &mut [u64],
    places: &mut [u64],
    copies: &mut [u64],
)
    requires small { count nodes.old ≤ 131072 }
    requires whole { 1 + 5 * count nodes.old ≤ length nodes.old }
    requires reached { ReachedFrom nodes.old roots.now marks.old }
    requires room { counted (count nodes.old) (marked marks.old) ≤ room nodes.old }
    requires cone { 11 + 5 * counted (count nodes.old) (marked marks.old) ≤ length cone.old }
    requires places { length places.old ≡ count nodes.old }
    requires copies { 2 + counted (count nodes.old) (marked marks.old) ≤ length copies.old }
    requires indexed { 0 < length index.old }
    ensures { TidiedAll nodes.old (marked roots.now) nodes.new places.new copies.new }
{
    simplify(nodes, marks, cone, index, places);
    copy_reached(roots, marks, places, cone, nodes, index, copies);
}

// Folds the marked nodes of a store into a cone, and writes down their places there.
fn simplify(nodes: &[u64], marks: &Marks, cone: &mut [u64], index: &mut [u64], places: &mut [u64])
    requires small { count nodes.now ≤ 131072 }
    requires whole { 1 + 5 * count nodes.now ≤ length nodes.now }
    requires closed { Closed nodes.now (count nodes.now) marks.now }
    requires room { 11 + 5 * counted (count nodes.now) (marked marks.now) ≤ length cone.old }
    requires places { count nodes.now ≤ length places.old }
    requires indexed { 0 < length index.old }
    ensures { Simplified nodes.now (count nodes.now) marks.now cone.new places.new }
{
    begin(cone);
    let mut cone = Cone { nodes: cone, index };
    cone.fold(nodes, nodes[0], marks, places);
}

// Copies what the nodes that are to be tidied have come to in a cone, with all that it reaches there, behind the nodes of the store; the
// marks of what was folded give way to the marks of what is copied.
fn copy_reached(
    roots: &Marks,
    marks: &mut Marks,
    places: &[u64],
    cone: &[u64],
    nodes: &mut [u64],
    index: &mut [u64],
    copies: &mut [u64],
)
    requires simplified { Simplified nodes.old (count nodes.old) marks.old cone.now places.now }
    requires roots { (i : ℕ) → i < count nodes.old → marked roots.now i ≡ true → marked marks.old i ≡ true }
    requires small { (count nodes.old ≤ 131072) × (count cone.now ≤ 131072) }
    requires room { Room nodes.old (counted (count nodes.old) (marked marks.old)) }
    requires long { (count nodes.old ≤ length places.now) × (count cone.now ≤ length copies.old) }
    requires indexed { 0 < length index.old }
    ensures copies { Copies cone.now (count cone.now) marks.new nodes.old nodes.new copies.new }
    ensures roots { (i : ℕ) → i < count nodes.old → marked roots.now i ≡ true → marked marks.new (slice_index places.now i) ≡ true }
    ensures few { counted (count cone.now) (marked marks.new) ≤ counted (count nodes.old) (marked marks.old) }
{
    let n = cone[0] as usize;
    marks.fill(false);
    mark_places(roots, nodes[0] as usize, places, marks);
    close(cone, n, marks);
    index.fill(0);
    index_all(nodes, index);
    copy(cone, n, marks, nodes, index, copies);
}

// Marks the places of marked ones of the first n nodes.
fn mark_places(roots: &[bool], n: usize, places: &[u64], marks: &mut [bool])
    requires roots { n ≤ length roots.now }
    requires places { n ≤ length places.now }
    requires inside { (i : ℕ) → i < n → marked roots.now i ≡ true → slice_index places.now i < length marks.old }
    ensures marks { (i : ℕ) → i < n → marked roots.now i ≡ true → marked marks.new (slice_index places.now i) ≡ true }
    ensures only { (j : ℕ) → marked marks.new j ≡ true → (marked marks.old j ≡ true) ⊎ PlaceOf n roots.now places.now j }
{
    for i in 0..n {
        if roots[i] {
            marks[places[i] as usize] = true;
        }
    }
}
