// What is passed in to deciding, checked.
ghost use Rattle.std.specs.Prelude.{◌≡◌, ◌*◌, ◌≤◌, length, IfOk};
ghost use Rattle.condition.specs.Refusals.{outcome};
ghost use Rattle.list.specs.Layout.{line_size};
ghost use Rattle.decide.specs.Sought.{known_of, deciding_of};
ghost use Rattle.decide.specs.Standing.{whole_lines, answer_told, nine_told, Checked};
ghost use Rattle.decide.specs.Surveying.{FewNamed};

use crate::counting::count_numbers;
use crate::surveying::Survey;
use arrayvec::ArrayVec;
use condition::{Refusal, store_count};
use list::{any_lines_fit, any_lines_named, check_lists, check_named, line_size};

// How many nodes stand in the store; or why the lists, the store or an answer of n lines, w cells wide, is refused.
pub(crate) fn check_answer(
    lists: &[u64],
    nodes: &[u64],
    answer: &[u64],
    n: u64,
    w: u64,
) -> Result<u64, Refusal>
    ensures refusal { outcome result ≡ answer_told lists.now nodes.now answer.now n w }
    ensures value { IfOk result (Checked lists.now nodes.now answer.now n w) }
{
    check_lists(lists)?;
    let whole = whole_lines(answer, n, w);
    if !any_lines_fit(answer, whole, w as usize) {
        return Err(Refusal::BadLists(9));
    }
    let count = store_count(nodes)?;
    check_named(lists, count)?;
    if !any_lines_named(answer, whole, w as usize, count) {
        return Err(Refusal::NoSuchNode(9));
    }
    if whole as u64 != n {
        return Err(Refusal::AnswerTooShort(answer.len() as u64));
    }
    Ok(count)
}

// The gaps that decide a row, where they are at most six, and the numbers that decide it at most eight.
pub(crate) fn check_named_few(survey: &Survey) -> Result<ArrayVec<u64, 6>, Refusal>
    ensures refusal { outcome result ≡ nine_told (known_of survey.now.sought) (deciding_of survey.now.sought) survey.now.sought.row.now }
    ensures value { IfOk result (λ gaps. FewNamed survey.now.notes gaps.items) }
{
    let notes = &survey.notes;
    let sought = &survey.sought;
    let gaps = notes.count_gaps();
    if gaps > 6 {
        return Err(Refusal::TooManyGaps(gaps));
    }
    if notes.numbers().len() > 8 {
        let numbers = count_numbers(&sought.marked(survey.marks), sought.row);
        return Err(Refusal::TooManyNumbersAt(64 + numbers));
    }
    Ok(notes.gap_names())
}

// How many of n lines, w cells wide, lie whole in a slice.
pub fn whole_lines(answer: &[u64], n: u64, w: u64) -> usize
    ensures is { result ≡ whole_lines n w answer.now }
    ensures inside { result * line_size w ≤ length answer.now }
{
    let size = answer.len() as u64;
    if w >= size {
        return 0;
    }
    n.min(size / line_size(w as usize) as u64) as usize
}
