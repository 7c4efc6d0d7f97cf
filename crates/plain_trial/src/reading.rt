// The lists and the nodes of a file.
ghost use Rattle.std.specs.Prelude.{◌≡◌, ◌<◌, ◌↔◌, IfOk, IfSome, IsSome, vec_len};
ghost use Rattle.plain_trial.specs.declared.reading.TheConstants.{GAPS};

use crate::telling::Refusal;
use std::alloc::{AllocError, Global};

// The most lists, and the most lines of a list.
const MOST_LISTS: u64 = 8;

const MOST_LINES: u64 = 8;

const MOST_COLUMNS: u64 = 4;

// How many names there are for gaps.
pub const GAPS: usize = 64;

// A gap, by its name.
#[derive(Clone, Copy, PartialEq, Eq, PartialOrd, Ord)]
pub struct Gap {
    pub name: usize,
    ghost named: { name < GAPS },
}

#[derive(Clone, Copy)]
pub enum Cell {
    Number(u64),
    Gap(Gap),
}

// A condition over two cells, or over conditions at other places.
#[derive(Clone, Copy)]
pub enum Node {
    Always,
    Never,
    Equal(Cell, Cell),
    Not(u64),
    Both(u64, u64),
    Either(u64, u64),
}

// The place of its condition, and its cells.
#[derive(Drop)]
pub struct Line {
    pub node: u64,
    pub cells: Vec<Cell>,
}

#[derive(Drop)]
pub struct List {
    pub columns: u64,
    pub lines: Vec<Line>,
}

// The lists, the nodes, and the place of what is known.
#[derive(Drop)]
pub struct Book {
    pub known: u64,
    pub lists: Vec<List>,
    pub nodes: Vec<Node>,
}

// The bytes of a file that are left to read.
#[derive(Drop)]
pub struct Input<'a> {
    rest: &'a [u8],
}

impl<'a> Input<'a> {
    pub fn new(bytes: &'a [u8]) -> Input<'a> {
        Input { rest: bytes }
    }

    pub fn left(&self) -> usize {
        self.rest.len()
    }

    pub fn byte(&mut self) -> Option<u8> {
        self.rest.split_off_first().copied()
    }

    // The number in the next four bytes, low byte first.
    pub fn number(&mut self) -> Option<u64> {
        let (bytes, rest) = self.rest.split_first_chunk()?;
        self.rest = rest;
        Some(u64::from(u32::from_le_bytes(*bytes)))
    }

    // The next numbers, as many as the caller takes apart.
    pub fn numbers<const N: usize>(&mut self) -> Option<[u64; N]> {
        let mut numbers = [0; N];
        for number in &mut numbers {
            *number = self.number()?;
        }
        Some(numbers)
    }
}

impl Gap {
    // The gap of that name, if there is such a name.
    pub fn named(name: u64) -> Option<Gap>
        ensures valid { IsSome result ↔ (name < GAPS) }
        ensures value { IfSome result (λ gap. gap.name ≡ name) }
    {
        let name = name as usize;
        if name < GAPS {
            Some(Gap { name })
        } else {
            None
        }
    }
}

impl Cell {
    // A tag and a number or a gap, whose tag is any but 0.
    fn tagged(tag: u64, n: u64) -> Option<Cell> {
        match tag {
            0 => Some(Cell::Number(n)),
            _ => Gap::named(n).map(Cell::Gap),
        }
    }

    // A cell of a list, where a gap's tag is 1.
    fn read(input: &mut Input) -> Option<Cell> {
        let [tag, n] = input.numbers::<2>()?;
        if tag > 1 {
            return None;
        }
        Cell::tagged(tag, n)
    }
}

impl Node {
    fn read(input: &mut Input) -> Option<Node> {
        let [kind, a, b, c, d] = input.numbers::<5>()?;
        Some(match kind {
            0 => Node::Always,
            1 => Node::Never,
            // Never where a gap has no name.
            2 => Cell::tagged(a, b)
                .zip(Cell::tagged(c, d))
                .map_or(Node::Never, |(first, second)| Node::Equal(first, second)),
            3 => Node::Not(a),
            4 => Node::Both(a, b),
            _ => Node::Either(a, b),
        })
    }
}

impl Line {
    fn read(heap: Global, input: &mut Input, columns: u64, bad: Refusal) -> Result<Line, Refusal> {
        let node = input.number().ok_or(bad)?;
        let cells = (0..columns)
            .map(|_| Cell::read(input).ok_or(bad))
            .try_collect(heap)?;
        Ok(Line { node, cells })
    }
}

impl List {
    fn read(heap: Global, input: &mut Input, bad: Refusal) -> Result<List, Refusal> {
        let [many, columns] = input.numbers::<2>().ok_or(bad)?;
        if many > MOST_LINES || columns < 1 || columns > MOST_COLUMNS {
            return Err(bad);
        }
        let lines = (0..many)
            .map(|_| Line::read(heap, input, columns, bad))
            .try_collect(heap)?;
        Ok(List { columns, lines })
    }
}

impl Book {
    // Everything before the questions; or the first fault: of a list, of the nodes, of a node that is named.
    pub fn read(heap: Global, input: &mut Input) -> Result<Book, Refusal> {
        let bad = Refusal::BadList(0);
        let count = u64::from(input.byte().ok_or(bad)?);
        let [many, known] = input.numbers::<2>().ok_or(bad)?;
        if many < 1 {
            return Err(bad);
        }
        if many > MOST_LISTS {
            return Err(Refusal::BadList(MOST_LISTS));
        }
        let lists = (0..many)
            .map(|i| List::read(heap, input, Refusal::BadList(i)))
            .try_collect(heap)?;
        let nodes = (0..count)
            .map(|_| Node::read(input).ok_or(Refusal::CutNodes(count)))
            .try_collect(heap)?;
        let book = Book {
            known,
            lists,
            nodes,
        };
        book.check()?;
        Ok(book)
    }

    // That every node that is named stands.
    fn check(&self) -> Result<(), Refusal> {
        let count = self.nodes.len() as u64;
        let misnames = |list: &List| list.lines.iter().any(|line| line.node >= count);
        if let Some(list) = self.lists.iter().position(misnames) {
            return Err(Refusal::NoSuchNode(list as u64));
        }
        if self.known >= count {
            return Err(Refusal::NoSuchNode(MOST_LISTS));
        }
        Ok(())
    }

    // What each node comes to, worked out from what the nodes before it come to.
    pub fn each_node<T: Drop, F: Fn(Node, &[T]) -> Result<T, AllocError>>(
        &self,
        heap: Global,
        of: F,
    ) -> Result<Vec<T>, AllocError>
        requires { F.IsAlwaysCallable of }
        ensures { IfOk result (λ each. vec_len each ≡ vec_len self.now.nodes) }
    {
        let mut earlier = Vec::new(heap);
        for node in &self.nodes {
            let worth = of(*node, &earlier)?;
            earlier.push(worth)?;
        }
        Ok(earlier)
    }
}
