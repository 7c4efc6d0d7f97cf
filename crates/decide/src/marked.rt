// Nodes of a store, some of them marked.
ghost use Rattle.std.specs.Prelude.{◌≡◌, ◌+◌, ◌*◌, ◌<◌, ◌≤◌, length};
ghost use Rattle.std.specs.Iterator.{YieldsFirst, item_count};
ghost use Rattle.condition.specs.Store.{count};
ghost use Rattle.condition.specs.Shapes.{Named};
ghost use Rattle.condition.specs.Nodes.{decoded};
ghost use Rattle.decide.specs.Reaching.{marked_places};

use condition::{MOST_NODES, Node, nth_node};

// A mark for each node that a store may have.
pub(crate) type Marks = [bool; MOST_NODES as usize];

// The first n nodes of a store, some of them marked.
#[derive(Clone, Copy)]
pub(crate) struct Marked<'n, 'm> {
    pub(crate) nodes: &'n [u64],
    pub(crate) n: usize,
    pub(crate) marks: &'m [bool],
    ghost stand: { n ≤ count nodes.now },
    ghost whole: { 1 + 5 * n ≤ length nodes.now },
    ghost fits: { n ≤ length marks.now },
}

impl<'m> Marked<'_, 'm> {
    ghost use Rattle.decide.specs.Marked.{places_left};

    // The places of the marked nodes, in rising order.
    pub(crate) fn places(&self) -> Places<'m>
        ensures { places_left result ≡ marked_places self.now.marks.now self.now.n }
    {
        Places {
            marks: self.marks,
            at: 0,
            n: self.n,
        }
    }

    // Node i.
    pub(crate) fn node(&self, i: usize) -> Node
        requires { i < self.now.n }
        ensures read { result ≡ decoded self.now.nodes.now i }
        ensures named { Named result }
    {
        nth_node(self.nodes, i)
    }
}

// The places from one on that are marked, one after the other.
#[derive(Drop)]
pub(crate) struct Places<'a> {
    marks: &'a [bool],
    at: usize,
    n: usize,
    ghost inside: { n ≤ length marks.now },
}

impl Iterator for Places<'_> {
    ghost use Rattle.decide.specs.Marked.{places_left};

    type Item = usize;

    ghost next_gives = { YieldsFirst places_left };

    ghost remaining = { item_count places_left };

    fn next(&mut self) -> Option<usize> {
        let place = (self.at..self.n).find(|place| self.marks[*place])?;
        self.at = place + 1;
        Some(place)
    }
}
