// Signs read into the parts of a question.
ghost use Rattle.std.specs.Prelude.{◌≡◌, ℕ, ◌+◌, ◌*◌, ◌^◌, ◌<◌, ◌≤◌, true, false, List, length, take, drop, MatchOption, MatchResult, slice_index};
ghost use Rattle.condition.specs.declared.Refusal.TheVariants.{BadQuestion};
ghost use Rattle.list.specs.Shapes.{shape_of};
ghost use Rattle.query.specs.Reading.{sign_in, reads, bad, test_fits};
ghost use Rattle.query.specs.Shapes.{test_of, pairs_of};
ghost use Rattle.query.specs.Parts.{Reads};
ghost use Rattle.query.specs.Tokens.{TokenIs, list_part, one_fits, one_part, pair_fits, pair_part};

use crate::{Columns, Part, Sign, Test};
use condition::Refusal;
use list::Shapes;

// A sign as it stands in memory: a list, or a sign with one question behind it, or one with two.
#[derive(Clone, Copy)]
enum Token {
    Listed(usize),
    Single(One),
    Double(Pair),
}

#[derive(Clone, Copy)]
enum One {
    Test(Test),
    // Which columns; none where they are not one to four.
    Cut(Option<Columns>),
}

#[derive(Clone, Copy)]
enum Pair {
    Joined,
    United,
    Less,
}

// The sign at the front of the signs that begin with these six numbers, if its kind is one.
fn token_of(six: [u64; 6]) -> Option<Token>
    ensures { (signs : List ℕ) → take 6 signs ≡ six → TokenIs result (sign_in (slice_index signs 0) (drop 1 signs)) }
{
    let a = six[1] as usize;
    let b = six[2] as usize;
    match six[0] {
        0 => Some(Token::Listed(a)),
        1 => Some(Token::Single(One::Test(Test::Same(a, b)))),
        2 => Some(Token::Single(One::Test(Test::Differ(a, b)))),
        3 => Some(Token::Single(One::Test(Test::Is(a, six[2])))),
        4 => Some(Token::Single(One::Test(Test::IsNot(a, six[2])))),
        5 => {
            let places = [b, six[3] as usize, six[4] as usize, six[5] as usize];
            Some(Token::Single(One::Cut(Columns::of(places, a))))
        }
        6 => Some(Token::Double(Pair::Joined)),
        7 => Some(Token::Double(Pair::United)),
        8 => Some(Token::Double(Pair::Less)),
        _ => None,
    }
}

// What is left once a question was read: the number of the next sign, and the numbers from there on.
#[derive(Clone, Copy)]
pub(crate) struct Reading<'a> {
    pub(crate) next: usize,
    rest: &'a [u64],
}

// Reads the question at the front of the signs that are left into the parts from `at` on, at most `left` signs deep; or tells the
// sign that can't be read.
pub(crate) fn read<'a>(
    signs: &'a [u64],
    left: u64,
    at: usize,
    shapes: &Shapes,
    parts: &mut [Part],
) -> Result<Reading<'a>, Refusal>
    requires long { length parts.old ≡ 16 }
    requires few { 6 * at + length signs.now ≤ 96 }
    ensures { MatchResult result (λ p. Reads left (pairs_of shapes.now) at signs.now parts.old parts.new p.next p.rest.now) (λ e. (off : ℕ) × (e ≡ BadQuestion off) × (reads left (pairs_of shapes.now) at signs.now ≡ bad off)) }
{
    let bad = Refusal::BadQuestion(at as u64);
    if left == 0 {
        return Err(bad);
    }
    let (six, behind) = signs.split_first_chunk::<6>().ok_or(bad)?;
    let token = token_of(*six).ok_or(bad)?;
    match token {
        Token::Listed(t) => {
            parts[at] = list_part(t, shapes).ok_or(bad)?;
            let next = at + 1;
            Ok(Reading { next, rest: behind })
        }
        Token::Single(one) => {
            let p = read(behind, left - 1, at + 1, shapes, parts)?;
            parts[at] = one_part(one, parts[at + 1]).ok_or(bad)?;
            Ok(p)
        }
        Token::Double(pair) => {
            let p = read(behind, left - 1, at + 1, shapes, parts)?;
            let q = read(p.rest, left - 1, p.next, shapes, parts)?;
            let second = p.next - at;
            parts[at] = pair_part(pair, second, parts[at + 1], parts[p.next]).ok_or(bad)?;
            Ok(q)
        }
    }
}

// Whether the columns of a test are columns of a question that is w wide.
fn test_fits(test: Test, w: usize) -> bool
    ensures { result ≡ test_fits (test_of test) w }
{
    match test {
        Test::Same(a, b) | Test::Differ(a, b) => a < w && b < w,
        Test::Is(a, _) | Test::IsNot(a, _) => a < w,
    }
}

// The part of a list, if there is such a list.
fn list_part(t: usize, shapes: &Shapes) -> Option<Part>
    ensures { MatchOption result (shapes.now.count ≤ t) (λ p. (t < shapes.now.count) × (p ≡ list_part t (shape_of shapes.now t))) }
{
    let shape = shapes.get(t)?;
    Some(Part {
        sign: Sign::Rows(t),
        lines: shape.lines as u64,
        width: shape.width,
        cost: 0,
    })
}

// The part of a sign with one question behind it, if its columns fit.
fn one_part(one: One, p: Part) -> Option<Part>
    requires lines { p.lines ≤ 2 ^ 48 }
    requires cost { p.cost ≤ 2 ^ 57 }
    ensures { MatchOption result (false ≡ one_fits one p.width) (λ part. (true ≡ one_fits one p.width) × (part ≡ one_part one p)) }
{
    match one {
        One::Test(test) => test_fits(test, p.width).then_some(Part {
            sign: Sign::Keep(test),
            cost: p.cost + 3 * p.lines,
            ..p
        }),
        One::Cut(columns) => {
            let columns = columns?;
            columns.fit(p.width).then_some(Part {
                sign: Sign::Columns(columns),
                width: columns.as_slice().len(),
                ..p
            })
        }
    }
}

// The part of a sign with two questions behind it, the second so many parts further on, if they go together.
fn pair_part(pair: Pair, second: usize, p: Part, q: Part) -> Option<Part>
    requires lines { (p.lines ≤ 2 ^ 48) × ((q.lines ≤ 2 ^ 48) × (p.lines * q.lines ≤ 2 ^ 48)) }
    requires width { (p.width ≤ 8) × (q.width ≤ 8) }
    requires cost { (p.cost ≤ 2 ^ 57) × (q.cost ≤ 2 ^ 57) }
    ensures { MatchOption result (false ≡ pair_fits pair p.width q.width) (λ part. (true ≡ pair_fits pair p.width q.width) × (part ≡ pair_part pair second p q)) }
{
    let pairs = p.lines * q.lines;
    let cost = p.cost + q.cost;
    match pair {
        Pair::Joined => (p.width + q.width <= 8).then_some(Part {
            sign: Sign::Join(second),
            lines: pairs,
            width: p.width + q.width,
            cost: cost + pairs,
        }),
        Pair::United => (p.width == q.width).then_some(Part {
            sign: Sign::Union(second),
            lines: p.lines + q.lines,
            width: p.width,
            cost,
        }),
        Pair::Less => (p.width == q.width).then_some(Part {
            sign: Sign::Without(second),
            lines: p.lines,
            width: p.width,
            cost: cost + pairs * (2 * p.width as u64 + 3),
        }),
    }
}
