// Asking: what is passed in is checked, nodes are laid behind those that stand, and the answer's lines are written.
ghost use Rattle.std.specs.Prelude.{◌≡◌, IfOk, OnOk};
ghost use Rattle.condition.specs.Refusals.{outcome};
ghost use Rattle.list.specs.Layout.{shapes, lines_in, known_in, all_in};
ghost use Rattle.query.specs.Parts.{Parted};
ghost use Rattle.query.specs.Questions.{Stands};
ghost use Rattle.query.specs.Reading.{asked};
ghost use Rattle.answer.specs.Entry.{question, parts_size, ask_told, Passed, Answered, AskSays, Stays};
ghost use Rattle.answer.specs.Promise.{Answers};

use crate::side::{Asked, Side};
use condition::{Node, Refusal, add, room};
use list::{Shapes, check, line_size};
use query::Question;

// Answers a question with gaps, and tells how many lines the answer has: nodes are laid behind those that stand, at most the
// question's cost and two, and the front of out holds the answer's lines. A refusal leaves both slices as they were.
pub fn ask(lists: &[u64], signs: &[u64], nodes: &mut [u64], out: &mut [u64]) -> Result<u64, Refusal>
    ensures says { AskSays lists.now signs.now nodes.old out.old result nodes.new out.new }
    ensures answers { OnOk result (Answers (known_in nodes.old lists.now) (all_in nodes.old lists.now) (question lists.now signs.now).query (lines_in nodes.new (question lists.now signs.now).lines (question lists.now signs.now).width out.new)) }
    ensures stays { Stays lists.now nodes.old nodes.new }
{
    let question = checked(lists, signs, nodes, out)?;
    put_answer(lists, &question, nodes, out);
    Ok(question.lines())
}

// The question that is asked; or the first refusal that applies.
fn checked(lists: &[u64], signs: &[u64], nodes: &[u64], out: &[u64]) -> Result<Question, Refusal>
    ensures refusal { outcome result ≡ ask_told lists.now signs.now nodes.now out.now }
    ensures value { IfOk result (λ q. Stands (shapes lists.now) (asked lists.now signs.now) q.parts q.signs) }
{
    check(lists, nodes)?;
    let question = Question::within(Shapes::of(lists), signs)?;
    let room = room(nodes)?;
    if room < question.cost() + 2 {
        return Err(Refusal::StoreFull(room));
    }
    let size = question.lines() as usize * line_size(question.width());
    if out.len() < size {
        return Err(Refusal::AnswerTooShort(out.len() as u64));
    }
    Ok(question)
}

// Lays the nodes of a question's answer and writes its lines.
fn put_answer<'a>(lists: &'a [u64], question: &'a Question, nodes: &mut [u64], out: &mut [u64])
    requires parts { Parted 16 (shapes lists.now) question.now.signs question.now.parts }
    requires passed { Passed (parts_size lists.now question.now.parts) lists.now nodes.old out.old }
    ensures answered { Answered (parts_size lists.now question.now.parts) lists.now nodes.old out.old nodes.new out.new }
    ensures stays { Stays lists.now nodes.old nodes.new }
{
    let shapes = Shapes::of(lists);
    let first = add(nodes, Node::Always);
    let side = Side {
        asked: Asked {
            lists,
            shapes: &shapes,
            first,
        },
        parts: question.parts(),
        left: 16,
        base: first + 1,
    };
    side.lay(nodes);
    side.put_lines(out);
}
