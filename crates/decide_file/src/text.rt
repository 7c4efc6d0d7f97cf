// A condition given as text: `known K`, `shows S`, `nodes N`, and N lines of five numbers.
ghost use Rattle.std.specs.Prelude.{◌≡◌, ℕ, List, ◌+◌, ◌-◌, ◌*◌, ◌<◌, ◌≤◌, true, [], ◌∷◌, ◌++◌, length, take, IfSome, IfNone, IfOk, OnOk};
ghost use Rattle.decide_file.specs.Numbers.{numbers, plain, Whole};

use std::alloc::{AllocError, AllocFailed, Global};
use std::error::Error;
use std::fmt;
use std::marker::Model;

// The nodes of what is known and of what is shown, and the store that they stand in.
#[derive(Drop)]
pub struct Instance {
    pub known: u64,
    pub shows: u64,
    pub nodes: Vec<u64>,
}

// A word that a line begins with.
#[derive(Clone, Copy, Debug)]
pub enum Word {
    Known,
    Shows,
    Nodes,
}

// Why a text can't be read; lines are numbered from 1 on.
#[derive(Clone, Copy, Debug)]
pub enum Fault {
    // The line should begin with a word.
    NoWord { line: u64, word: Word },
    // A number should stand in the line.
    NoNumber { line: u64 },
    // A number of the line is above 2^64 - 1.
    TooLarge { line: u64 },
    // More stands in the line than should.
    Surplus { line: u64 },
    // So many nodes are said to follow, and so many do.
    CutShort { said: u64, there: u64 },
    NoMemory,
}

// What is left of a text, and the number of the line that it begins in.
#[derive(Drop)]
struct Text<'a> {
    rest: &'a [u8],
    line: u64,
}

// Contracts see the bytes that are left.
impl<'a> Model for Text<'a> {
    ghost Value = { List ℕ };

    ghost view = { λ t. t.rest.now };
}

// The instance that a text tells.
pub fn read_instance(heap: Global, text: &[u8]) -> Result<Instance, Fault>
    ensures numbers { IfOk result (λ i. numbers text.now ≡ i.known ∷ (i.shows ∷ i.nodes.items)) }
    ensures whole { IfOk result (λ i. Whole i.nodes.items) }
{
    let mut text = Text {
        rest: text,
        line: 1,
    };
    let known = text.named(Word::Known)?;
    let shows = text.named(Word::Shows)?;
    let count = text.named(Word::Nodes)?;
    let nodes = text.nodes(heap, count)?;
    text.end()?;
    Ok(Instance {
        known,
        shows,
        nodes,
    })
}

impl<'a> Text<'a> {
    // A line that is a word and a number.
    fn named(&mut self, word: Word) -> Result<u64, Fault>
        ensures { IfOk result (λ n. numbers self.old ≡ n ∷ numbers self.new) }
    {
        self.rest = self.behind(word).ok_or(Fault::NoWord {
            line: self.line,
            word,
        })?;
        let number = self.number()?;
        self.end_line()?;
        Ok(number)
    }

    // What stands behind the word and a blank; nothing where these don't stand next.
    fn behind(&self, word: Word) -> Option<&'a [u8]>
        ensures { IfSome result (λ rest. numbers rest.now ≡ numbers self.now) }
    {
        self.rest
            .strip_prefix(word.name().as_bytes())?
            .strip_prefix(b" ")
    }

    // A store of so many nodes, one a line.
    fn nodes(&mut self, heap: Global, count: u64) -> Result<Vec<u64>, Fault>
        ensures numbers { IfOk result (λ v. v.items ++ numbers self.new ≡ count ∷ numbers self.old) }
        ensures whole { IfOk result (λ v. Whole v.items) }
    {
        // Each number that is left takes a digit and the byte that parts it from the next; the count comes before them.
        let most = self.rest.len() / 2 + 2;
        let mut nodes = Vec::with_capacity(heap, most)?;
        nodes.push(count)?;
        for there in 0..count {
            if self.rest.is_empty() {
                return Err(Fault::CutShort { said: count, there });
            }
            self.node(&mut nodes)?;
        }
        Ok(nodes)
    }

    // A line of five numbers, put behind those in `nodes`.
    fn node(&mut self, nodes: &mut Vec<u64>) -> Result<(), Fault>
        ensures numbers { OnOk result (nodes.new.items ++ numbers self.new ≡ nodes.old.items ++ numbers self.old) }
        ensures long { OnOk result (length nodes.new.items ≡ length nodes.old.items + 5) }
    {
        for _ in 0..5u64 {
            nodes.push(self.number()?)?;
        }
        self.end_line()
    }

    // The next number of the line.
    fn number(&mut self) -> Result<u64, Fault>
        ensures { IfOk result (λ n. numbers self.old ≡ n ∷ numbers self.new) }
    {
        self.skip_blanks();
        let mut number = self.digit().ok_or(Fault::NoNumber { line: self.line })?;
        while let Some(digit) = self.digit() {
            number = with_digit(number, digit).ok_or(Fault::TooLarge { line: self.line })?;
        }
        Ok(number)
    }

    // The digit that stands next, taken off the text; nothing where none does.
    fn digit(&mut self) -> Option<u64>
        ensures found { IfSome result (λ d. (d < 10) × (self.old ≡ (d + 48) ∷ self.new)) }
        ensures none { IfNone result (plain (take 1 self.old) ≡ true) }
        ensures left { IfNone result (self.new ≡ self.old) }
    {
        let (first, rest) = self.rest.split_first()?;
        let digit = char::from(*first).to_digit(10)?;
        self.rest = rest;
        Some(u64::from(digit))
    }

    // The blanks that stand next are taken off the text.
    fn skip_blanks(&mut self)
        ensures numbers { numbers self.new ≡ numbers self.old }
        ensures long { length self.new ≤ length self.old }
    {
        while let [b' ' | b'\t' | b'\r', rest @ ..] = self.rest {
            self.rest = rest;
        }
    }

    // The end of the line, or of the text.
    fn end_line(&mut self) -> Result<(), Fault>
        ensures numbers { OnOk result (numbers self.new ≡ numbers self.old) }
        ensures long { OnOk result (length self.new ≤ length self.old - 1) }
    {
        self.skip_blanks();
        match self.rest {
            [] => Ok(()),
            [b'\n', rest @ ..] => {
                self.rest = rest;
                self.line = self.line.saturating_add(1);
                Ok(())
            }
            _ => Err(Fault::Surplus { line: self.line }),
        }
    }

    // That nothing but empty lines is left.
    fn end(&mut self) -> Result<(), Fault>
        ensures { OnOk result (numbers self.old ≡ []) }
    {
        while !self.rest.is_empty() {
            self.end_line()?;
        }
        Ok(())
    }
}

impl Word {
    // The word as it stands in a text.
    fn name(self) -> &'static str
        ensures { plain result.now ≡ true }
    {
        match self {
            Word::Known => "known",
            Word::Shows => "shows",
            Word::Nodes => "nodes",
        }
    }
}

// A number with one more digit; nothing where it is above 2^64 - 1.
fn with_digit(number: u64, digit: u64) -> Option<u64>
    ensures { IfSome result (λ n. n ≡ number * 10 + digit) }
{
    number.checked_mul(10)?.checked_add(digit)
}

impl fmt::Display for Word {
    fn fmt<W: fmt::Write>(&self, f: &mut fmt::Formatter<W>) -> fmt::Result {
        f.write_str(self.name())
    }
}

impl fmt::Display for Fault {
    fn fmt<W: fmt::Write>(&self, f: &mut fmt::Formatter<W>) -> fmt::Result {
        match *self {
            Fault::NoWord { line, word } => {
                write!(f, "line {line}: `{word}` and a number should stand here")
            }
            Fault::NoNumber { line } => write!(f, "line {line}: a number is missing"),
            Fault::TooLarge { line } => write!(f, "line {line}: a number is above 2^64 - 1"),
            Fault::Surplus { line } => write!(f, "line {line}: more stands here than should"),
            Fault::CutShort { said, there } => {
                write!(f, "{said} nodes should stand here, and {there} do")
            }
            Fault::NoMemory => write!(f, "no memory"),
        }
    }
}

impl Error for Fault {}

impl From<AllocError> for Fault {
    fn from(_e: AllocError) -> Fault {
        Fault::NoMemory
    }
}

impl<T: Drop> From<AllocFailed<T>> for Fault {
    fn from(_e: AllocFailed<T>) -> Fault {
        Fault::NoMemory
    }
}
