// What is known of the worked example and the lines of its answer, tidied.

use crate::{LISTS, MOTHERS, NODES};
use answer::{ask, with_room};
use condition::Condition;
use learn::{tidy, tidy_answer};
use std::io;

// Tidies what is known, and the lines of a fresh answer.
pub fn tell_tidied(rt: &HostRuntime) -> anyhow::Result<()> {
    let heap = rt.alloc();
    let mut nodes = with_room(heap, &NODES, 60)?;
    let mut answer = vec![in heap; 0u64; 30]?;
    ask(&LISTS, &MOTHERS, &mut nodes, &mut answer)?;
    tell_conditions(rt, &nodes, &answer)?;
    tell_one_tidied(rt, &mut nodes, 6)?;
    for _ in 0..2 {
        let lines = answer.len() as u64 / 5;
        let left = tidy_answer(heap, &mut nodes, &mut answer, lines, 2)?;
        answer.truncate((left as usize).saturating_mul(5));
        tell_conditions(rt, &nodes, &answer)?;
    }
    tell_one_tidied(rt, &mut nodes, 1000)?;
    let mut full = NODES;
    tell_one_tidied(rt, &mut full, 6)?;
    tell_one_tidied(rt, &mut [7], 6)?;
    for (lines, width) in [(7, 2), (u64::MAX, 0), (1, u64::MAX)] {
        match tidy_answer(heap, &mut nodes, &mut answer, lines, width) {
            Ok(left) => println!(rt; "{lines} lines {width} wide: {left} left")?,
            Err(refusal) => println!(rt; "{lines} lines {width} wide: {refusal}")?,
        }
    }
    Ok(())
}

// Tidies the condition of one node.
fn tell_one_tidied(rt: &HostRuntime, nodes: &mut [u64], node: u64) -> io::Result<()> {
    match tidy(rt.alloc(), nodes, node) {
        Ok(place) => {
            let condition = Condition { nodes, node: place };
            println!(rt; "node {node} is tidied: {condition}")
        }
        Err(refusal) => println!(rt; "node {node}: {refusal}"),
    }
}

// How many nodes stand, and the conditions of an answer's lines.
fn tell_conditions(rt: &HostRuntime, nodes: &[u64], answer: &[u64]) -> io::Result<()> {
    let count = nodes.first().copied().unwrap_or(0);
    println!(rt; "{count} nodes")?;
    for line in answer.chunks_exact(5) {
        let node = line.first().copied().unwrap_or(0);
        println!(rt; "  if {}", Condition { nodes, node })?;
    }
    Ok(())
}
