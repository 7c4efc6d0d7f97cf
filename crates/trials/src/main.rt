// Random questions, conditions and answers, beside what filling the gaps in every way shows of them.
#![tactic(auto)]

use random::Random;

mod answers;
mod cases;
mod drawing;
mod learning;
mod names;
mod plain;
mod questions;
mod random;
mod shares;
mod showing;
mod trying;

const SEED: u64 = 1791;

fn main(rt: HostRuntime) -> anyhow::Result<()> {
    run(&rt)
}

fn run(rt: &HostRuntime) -> anyhow::Result<()> {
    let heap = rt.alloc();
    let mut random = Random::of(SEED);
    let mut drawn = Random::of(SEED + 1);
    questions::ask_questions(rt, heap, &mut random, &mut drawn)?;
    answers::decide_lines(rt, heap, &mut random)?;
    answers::decide_answers(rt, heap, &mut random)?;
    learning::learn_all(rt, heap, &mut random)?;
    shares::tell_shares(rt, heap, SEED + 2)
}
