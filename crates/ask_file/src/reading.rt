// The lists, the nodes and the questions of a file.
ghost use Rattle.std.specs.Prelude.{◌<◌, length, OnOk};

use condition::Refusal;
use file_bytes::{Input, read_lists, read_nodes};
use list::{check, check_lists};
use query::Question;
use std::alloc::Global;

// The most lines of a list in a file.
const MOST_LINES: u64 = 8;

// The lists and the nodes of a file.
#[derive(Drop)]
pub struct Book {
    pub lists: Vec<u64>,
    pub nodes: Vec<u64>,
}

// A question of a file: its signs, how large its answer is, and the rows asked about, one after the other.
#[derive(Drop)]
pub struct Asked {
    pub signs: Vec<u64>,
    pub question: Question,
    pub rows: Vec<u64>,
}

impl Book {
    // The lists and the nodes, behind the one byte that says how many nodes there are.
    pub fn read(heap: Global, input: &mut Input) -> Result<Book, Refusal> {
        let count = input.byte().ok_or(Refusal::BadLists(0))?;
        let lists = read_all_lists(heap, input)?;
        let nodes = read_nodes(heap, input, u64::from(count))?;
        check(&lists, &nodes)?;
        Ok(Book { lists, nodes })
    }
}

// The lists, or the first that is none; also of those before one that is cut short, and before nodes that are.
fn read_all_lists(heap: Global, input: &mut Input) -> Result<Vec<u64>, Refusal> {
    let mut before = *input;
    match read_lists(heap, input, MOST_LINES) {
        Ok(lists) => {
            check_lists(&lists)?;
            Ok(lists)
        }
        Err(Refusal::BadLists(cut)) if cut < 8 => {
            check_before(heap, &mut before, cut)?;
            Err(Refusal::BadLists(cut))
        }
        Err(refusal) => Err(refusal),
    }
}

// Whether the first lists of a file, as many as are whole, are lists.
fn check_before(heap: Global, input: &mut Input, whole: u64) -> Result<(), Refusal> {
    let mut numbers = Vec::new(heap);
    let left = input.left() as u64 / 4;
    input.numbers(left, &mut numbers, Refusal::BadLists(0))?;
    if let Some(count) = numbers.first_mut() {
        *count = whole;
    }
    check_lists(&numbers)?;
    Ok(())
}

impl Asked {
    // The next question and its rows; something of the input is read then.
    pub fn read(heap: Global, input: &mut Input, lists: &[u64]) -> Result<Asked, Refusal>
        ensures { OnOk result (length input.new.rest.now < length input.old.rest.now) }
    {
        let count = u64::from(input.byte().ok_or(Refusal::BadQuestion(0))?);
        // Those that are there.
        let whole = count.min(input.left() as u64 / 24);
        let mut signs = Vec::new(heap);
        input.numbers(6 * whole, &mut signs, Refusal::BadQuestion(whole))?;
        let question = Question::parse(lists, &signs)?;
        if whole < count {
            return Err(Refusal::BadQuestion(whole));
        }
        let width = question.width().max(1) as u64;
        let count = input.byte().unwrap_or(0);
        let cut = (input.left() / 4) as u64 % width;
        let mut rows = Vec::new(heap);
        input.numbers(
            u64::from(count) * width.min(8),
            &mut rows,
            Refusal::WrongWidth(cut),
        )?;
        Ok(Asked {
            signs,
            question,
            rows,
        })
    }
}
