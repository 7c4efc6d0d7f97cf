// The search: rows of one depth, in chunks.
ghost use Rattle.std.specs.Prelude.{◌≡◌, ℕ, ◌+◌, ◌<◌, ◌≤◌, Bool, ◌&&◌, All, length, is_some};
ghost use Rattle.condition.specs.Store.{count};
ghost use Rattle.decide.specs.Sides.{side};
ghost use Rattle.decide.specs.Search.{tried, at_once, Begun, Sound, Searched, wanted, First, OrFirst, Extended};

use crate::lanes::might_meet;
use crate::leaves::meet;
use crate::rows::{Row, Rows};
use crate::sides::Sides;
use crate::task::Task;
use crate::words::{Pair, Word};
use arrayvec::ArrayVec;

// A row that meets what is known and what is shown, and one that meets what is known and not what is shown, as far as found.
pub(crate) type Met = Sides<Option<Row>>;

impl Met {
    // Whether nothing is left to be found.
    fn is_whole(&self) -> bool
        ensures { result ≡ (is_some self.now.yes && is_some self.now.no) }
    {
        self.yes.is_some() && self.no.is_some()
    }

    // Whether something that is left might be found in a lane.
    fn wants(&self, lanes: &Sides<Word>, l: usize) -> bool
        requires { l < 256 }
        ensures { result ≡ wanted self.now lanes.now l }
    {
        self.yes.is_none() && lanes.yes.test(l) || self.no.is_none() && lanes.no.test(l)
    }

    // What is left, from the first rows whose lanes say so.
    fn or_first(&self, lanes: &Sides<Pair>, rows: &Rows) -> Met
        ensures { (t : Bool) → OrFirst (side t self.now) (side t lanes.now) rows.now.list.items (side t result) }
    {
        Sides {
            yes: self.yes.or_else(|| first(lanes.yes, rows)),
            no: self.no.or_else(|| first(lanes.no, rows)),
        }
    }
}

// What can be found of both goals among the fillings that go on from some rows, in which the gaps before `depth` are settled.
//
// A row goes on while it might meet a goal that has no row yet; with all gaps settled it meets a goal or not.
pub(crate) fn search(
    task: &Task,
    depth: usize,
    rows: &Rows,
    values: &mut [Pair],
    mut met: Met,
) -> Met
    requires room { count task.now.cone.now ≤ length values.old }
    requires deep { depth ≤ length (tried task.now) }
    requires few { length rows.now.list.items ≤ at_once task.now depth }
    requires begun { All (Begun task.now depth) rows.now.list.items }
    requires sound { (t : Bool) → Sound task.now t (side t met) }
    ensures { Searched task.now depth rows.now.list.items met result }
{
    if rows.list.is_empty() || met.is_whole() {
        return met;
    }
    if depth == task.gaps.names.len() {
        return met.or_first(&meet(task, rows, values), rows);
    }
    let lanes = might_meet(task, depth, rows, values);
    let most = task.at_once(depth + 1);
    let mut next = Rows::new();
    for (l, row) in rows.list.iter().enumerate() {
        if next.list.len() + 14 > most {
            met = search(task, depth + 1, &next, values, met);
            next.list.clear();
        }
        if met.wants(&lanes, l) {
            extend(task, depth, *row, &mut next.list);
        }
    }
    search(task, depth + 1, &next, values, met)
}

// Puts the rows that go on from a row behind others.
fn extend(task: &Task, depth: usize, row: Row, next: &mut ArrayVec<Row, 512>)
    requires { (depth < 6) × ((task.now.named + row.used < length task.now.pool.items) × (length next.old.items + 14 ≤ 512)) }
    ensures { Extended task.now depth row next.old.items next.new.items }
{
    let (known, fresh) = task.pool.split_at(task.named + row.used);
    for number in known {
        next.push(row.with(depth, *number, row.used));
    }
    next.push(row.with(depth, fresh[0], row.used + 1));
}

// The first row whose lane says yes.
fn first(lanes: Pair, rows: &Rows) -> Option<Row>
    ensures { First lanes rows.now.list.items result }
{
    let (_, row) = rows.list.iter().enumerate().find(|(l, _)| lanes.test(*l))?;
    Some(*row)
}
