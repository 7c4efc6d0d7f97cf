// What a node comes to in a cone, before it is looked for there: a place that stands, or a node with nothing to simplify.
ghost use Rattle.std.specs.Prelude.{◌≡◌, ◌<◌, ◌≤◌, true, not, IfSome};
ghost use Rattle.condition.specs.Cond.{cells_of};
ghost use Rattle.condition.specs.Store.{count, cond_at};
ghost use Rattle.condition.specs.Shapes.{Named};
ghost use Rattle.condition.specs.declared.Node.TheVariants.{Equal, Not};
ghost use Rattle.evaluate.specs.Filling.{Filling};
ghost use Rattle.decide.specs.Folding.{truth, Over, ComesTo, joined, vanishing, settling};

use crate::building::Cone;
use condition::{Cell, Node, nth_node};

// A place of a cone, or a node that is to stand in it.
#[derive(Clone, Copy)]
pub(crate) enum Simple {
    Place(u64),
    New(Node),
}

// The place of always, and that of never.
pub(crate) const ALWAYS: u64 = 0;

pub(crate) const NEVER: u64 = 1;

// How two conditions are joined: that all of them hold, or that any of them does.
#[derive(Clone, Copy)]
pub(crate) enum Join {
    All,
    Any,
}

impl Join {
    // The node that joins the conditions at two places.
    fn node(self, a: u64, b: u64) -> Node
        ensures { result ≡ joined self a b }
    {
        match self {
            Join::All => Node::Both(a, b),
            Join::Any => Node::Either(a, b),
        }
    }

    // The place of the constant that changes nothing where it is joined.
    fn vanishing(self) -> u64
        ensures { result ≡ vanishing self }
    {
        match self {
            Join::All => ALWAYS,
            Join::Any => NEVER,
        }
    }

    // The place of the constant that settles what it is joined to.
    fn settling(self) -> u64
        ensures { result ≡ settling self }
    {
        match self {
            Join::All => NEVER,
            Join::Any => ALWAYS,
        }
    }
}

impl Cone<'_, '_> {
    // What a node over places of the cone comes to there.
    pub(crate) fn simplify(&self, node: Node) -> Simple
        requires named { Named node }
        requires over { Over self.now.nodes.now node }
        ensures { ComesTo self.now.nodes.now node result }
    {
        match node {
            Node::Always => Simple::Place(ALWAYS),
            Node::Never => Simple::Place(NEVER),
            Node::Equal(a, b) => self.simple_equal(a, b),
            Node::Not(a) => self.simple_not(a),
            Node::Both(a, b) => self.simple_join(Join::All, a, b),
            Node::Either(a, b) => self.simple_join(Join::Any, a, b),
        }
    }

    // Two numbers, or one gap twice, are compared at once; else the gap stands before the number, the smaller gap before the other.
    fn simple_equal(&self, a: Cell, b: Cell) -> Simple
        requires { Named (Equal a b) }
        ensures { ComesTo self.now.nodes.now (Equal a b) result }
    {
        match (a, b) {
            (Cell::Number(m), Cell::Number(n)) => {
                if m == n {
                    Simple::Place(ALWAYS)
                } else {
                    Simple::Place(NEVER)
                }
            }
            (Cell::Number(_), Cell::Gap(_)) => Simple::New(Node::Equal(b, a)),
            (Cell::Gap(_), Cell::Number(_)) => Simple::New(Node::Equal(a, b)),
            (Cell::Gap(j), Cell::Gap(k)) => {
                if j == k {
                    Simple::Place(ALWAYS)
                } else if j < k {
                    Simple::New(Node::Equal(a, b))
                } else {
                    Simple::New(Node::Equal(b, a))
                }
            }
        }
    }

    // The other of the constants, or what was negated already.
    fn simple_not(&self, a: u64) -> Simple
        requires { a < count self.now.nodes.now }
        ensures { ComesTo self.now.nodes.now (Not a) result }
    {
        match a {
            ALWAYS => Simple::Place(NEVER),
            NEVER => Simple::Place(ALWAYS),
            _ => match self.negated(a) {
                Some(b) => Simple::Place(b),
                None => Simple::New(Node::Not(a)),
            },
        }
    }

    // The smaller place first; one place twice is that place.
    fn simple_join(&self, join: Join, a: u64, b: u64) -> Simple
        requires { (a < count self.now.nodes.now) × (b < count self.now.nodes.now) }
        ensures { ComesTo self.now.nodes.now (joined join a b) result }
    {
        if a == b {
            Simple::Place(a)
        } else if a < b {
            self.ordered_join(join, a, b)
        } else {
            self.ordered_join(join, b, a)
        }
    }

    // One constant vanishes, the other settles all, and so does a condition with its negation.
    fn ordered_join(&self, join: Join, a: u64, b: u64) -> Simple
        requires { (a < b) × (b < count self.now.nodes.now) }
        ensures { ComesTo self.now.nodes.now (joined join a b) result }
    {
        if a == join.vanishing() {
            Simple::Place(b)
        } else if a == join.settling() || self.negates(b, a) {
            Simple::Place(join.settling())
        } else {
            Simple::New(join.node(a, b))
        }
    }

    // Whether node b, behind a, negates the condition at a.
    fn negates(&self, b: u64, a: u64) -> bool
        requires { (2 ≤ b) × (b < count self.now.nodes.now) }
        ensures { result ≡ true → (v : Filling) → truth self.now.nodes.now v b ≡ not (truth self.now.nodes.now v a) }
    {
        self.negated(b) == Some(a)
    }

    // The place that node a negates, if it is a negation.
    fn negated(&self, a: u64) -> Option<u64>
        requires { (2 ≤ a) × (a < count self.now.nodes.now) }
        ensures before { IfSome result (λ b. b < a) }
        ensures value { IfSome result (λ b. (v : Filling) → truth self.now.nodes.now v a ≡ not (truth self.now.nodes.now v b)) }
        ensures cells { IfSome result (λ b. cells_of (cond_at self.now.nodes.now a) ≡ cells_of (cond_at self.now.nodes.now b)) }
    {
        match nth_node(self.nodes, a as usize) {
            Node::Not(b) => Some(b),
            _ => None,
        }
    }
}
