// Conditions built in a cone out of those that stand there: simplified, and each kept once.
ghost use Rattle.std.specs.Prelude.{◌≡◌, ℕ, ◌+◌, ◌*◌, ◌<◌, ◌≤◌, List, length, slice_index};
ghost use Rattle.condition.specs.Store.{count};
ghost use Rattle.decide.specs.Folding.{Begun, Tidy, Covered};
ghost use Rattle.decide.specs.OneWay.{begun_once, tidy_once};

use crate::simplifying::Simple;
use condition::{Cell, Node, add};

// A store, of any count of nodes, that begins with always and never, and an index of its nodes: see `intern`.
//
// Each slice is lent for a lifetime of its own: with one for both, the prover would not tell the owner what its store holds afterwards.
#[derive(Drop)]
pub struct Cone<'n, 'i> {
    pub nodes: &'n mut [u64],
    pub index: &'i mut [u64],
    pub ghost begun: { Begun nodes.now } by { begun_once nodes.now },
    pub ghost tidy: { Tidy nodes.now } by { tidy_once nodes.now },
    pub ghost indexed: { 0 < length index.now },
}

// Makes a store of always and never alone, for a cone to begin with.
pub fn begin(cone: &mut [u64])
    requires { 11 ≤ length cone.old }
    ensures begun { Begun cone.new }
    ensures count { count cone.new ≡ 2 }
    ensures tidy { Tidy cone.new }
    ensures covered { (ns gs : List ℕ) → Covered cone.new ns gs }
    ensures past { (k : ℕ) → 11 ≤ k → slice_index cone.new k ≡ slice_index cone.old k }
{
    cone[0] = 0;
    add(cone, Node::Always);
    add(cone, Node::Never);
}

impl Cone<'_, '_> {
    ghost use Rattle.std.specs.Prelude.{◌≡◌, true};
    ghost use Rattle.condition.specs.Store.{has_name};
    ghost use Rattle.condition.specs.Shapes.{cell_of, Named};
    ghost use Rattle.condition.specs.declared.Node.TheVariants.{Equal, Not, Both, Either};
    ghost use Rattle.decide.specs.Folding.{Over, Room, Built};
    ghost use Rattle.decide.specs.Building.{Same};

    // The place of a condition that holds where a node over places of the cone does.
    pub fn build(&mut self, node: Node) -> u64
        requires named { Named node }
        requires over { Over self.old.nodes.now node }
        requires room { Room self.old.nodes.now 1 }
        ensures same { Same self.old self.new }
        ensures built { Built self.old.nodes.now self.new.nodes.now node result }
    {
        match self.simplify(node) {
            Simple::Place(place) => place,
            Simple::New(simple) => self.intern(simple),
        }
    }

    // The place of the condition that two cells are equal.
    pub fn equal_of(&mut self, a: Cell, b: Cell) -> u64
        requires named { (has_name (cell_of a) ≡ true) × (has_name (cell_of b) ≡ true) }
        requires room { Room self.old.nodes.now 1 }
        ensures same { Same self.old self.new }
        ensures built { Built self.old.nodes.now self.new.nodes.now (Equal a b) result }
    {
        self.build(Node::Equal(a, b))
    }

    // The place of the condition that the one at a does not hold.
    pub fn not_of(&mut self, a: u64) -> u64
        requires stands { a < count self.old.nodes.now }
        requires room { Room self.old.nodes.now 1 }
        ensures same { Same self.old self.new }
        ensures built { Built self.old.nodes.now self.new.nodes.now (Not a) result }
    {
        self.build(Node::Not(a))
    }

    // The place of the condition that those at a and b hold.
    pub fn both_of(&mut self, a: u64, b: u64) -> u64
        requires stand { (a < count self.old.nodes.now) × (b < count self.old.nodes.now) }
        requires room { Room self.old.nodes.now 1 }
        ensures same { Same self.old self.new }
        ensures built { Built self.old.nodes.now self.new.nodes.now (Both a b) result }
    {
        self.build(Node::Both(a, b))
    }

    // The place of the condition that one of those at a and b holds.
    pub fn either_of(&mut self, a: u64, b: u64) -> u64
        requires stand { (a < count self.old.nodes.now) × (b < count self.old.nodes.now) }
        requires room { Room self.old.nodes.now 1 }
        ensures same { Same self.old self.new }
        ensures built { Built self.old.nodes.now self.new.nodes.now (Either a b) result }
    {
        self.build(Node::Either(a, b))
    }
}
