// Decides a condition given as text on standard input: whether some filling meets what is known and what is shown, and whether some
// meets what is known and not what is shown.
#![tactic(auto)]

mod text;

use condition::Refusal;
use decide::{Standing, decide_row};
use std::alloc::Global;
use std::io;
use std::io::Read;
use text::{Instance, read_instance};

fn main(rt: HostRuntime) -> anyhow::Result<()> {
    run(&rt)
}

fn run(rt: &HostRuntime) -> anyhow::Result<()> {
    let heap = rt.alloc();
    let mut bytes = Vec::new(heap);
    let mut stdin = rt.stdin();
    stdin.read_to_end(&mut bytes)?;
    let instance = read_instance(heap, bytes.as_slice())?;
    tell(rt, standing(heap, &instance))?;
    Ok(())
}

// How the empty row stands in an answer of one line without cells, whose condition is what is shown.
fn standing(heap: Global, instance: &Instance) -> Result<Standing, Refusal> {
    let lists = [1, instance.known, 0, 1];
    let answer = [instance.shows];
    decide_row(heap, &lists, instance.nodes.as_slice(), &answer, 1, 0, &[])
}

fn tell(rt: &HostRuntime, decided: Result<Standing, Refusal>) -> io::Result<()> {
    match decided {
        Ok(Standing::Sure) => println!(rt; "shows yes lacks no"),
        Ok(Standing::Possible) => println!(rt; "shows yes lacks yes"),
        Ok(Standing::Impossible) => println!(rt; "shows no lacks yes"),
        Ok(Standing::NothingFits) => println!(rt; "shows no lacks no"),
        Err(refusal) => println!(rt; "{refusal}"),
    }
}
