// Answers the file of ask_file by plain trial of all fillings, and shares no code with the libraries: what it prints is held beside
// what ask_file prints.
#![tactic(auto)]

mod naming;
mod questions;
mod reading;
mod rows;
mod sets;
mod setting;
mod telling;
mod trial;
mod trying;
mod watching;

use naming::MOST_GAPS;
use questions::Asked;
use reading::{Book, Input};
use setting::Setting;
use std::io;
use std::io::Read;
use trial::Trial;
use watching::Watch;

fn main(rt: HostRuntime) -> anyhow::Result<()> {
    let heap = rt.alloc();
    let mut bytes = Vec::new(heap);
    rt.stdin().read_to_end(&mut bytes)?;
    let mut input = Input::new(&bytes);
    match Book::read(heap, &mut input) {
        Ok(book) => answer_all(&rt, &Setting::of(heap, book)?, &mut input),
        Err(refusal) => Ok(rt.println(refusal)?),
    }
}

// Each question to the end of the file, or to one that can't be read.
fn answer_all(rt: &impl Print, setting: &Setting, input: &mut Input) -> anyhow::Result<()> {
    if setting.names.gaps.len() > MOST_GAPS {
        return Ok(rt.println("too many gaps for plain trial")?);
    }
    // There are no more of them than bytes.
    for _ in 0..input.left() {
        let Some(count) = input.byte() else {
            break;
        };
        match Asked::read(setting.heap, input, count, &setting.book.lists) {
            Ok(asked) => answer(rt, setting, &asked)?,
            Err(refusal) => return Ok(rt.println(refusal)?),
        }
    }
    Ok(())
}

// The sure rows and the rows asked about; or that the question is too large.
fn answer(rt: &impl Print, setting: &Setting, asked: &Asked) -> anyhow::Result<()> {
    if let Err(refusal) = asked.size.check() {
        return Ok(rt.println(refusal)?);
    }
    let Some(trial) = Trial::of(setting, asked)? else {
        return Ok(rt.println("too many fillings for plain trial")?);
    };
    let watch = trial.watch(asked.rows.clone()?)?;
    tell_sure(rt, &watch)?;
    Ok(tell_asked(rt, &trial, &watch)?)
}

// The rows that are there under every filling; or why they are not listed.
fn tell_sure(rt: &impl Print, watch: &Watch) -> io::Result<()> {
    match &watch.listed {
        Ok(listed) => listed
            .iter()
            .filter(|watched| watched.always)
            .try_for_each(|watched| println!(rt; "{watched}")),
        Err(refusal) => println!(rt; "{refusal}"),
    }
}

// Each row asked about; a sure one only where the sure rows are not listed.
fn tell_asked(rt: &impl Print, trial: &Trial, watch: &Watch) -> io::Result<()> {
    for watched in &watch.asked {
        if let Err(refusal) = trial.check_row(&watched.row) {
            println!(rt; "{refusal}")?;
        } else if !watched.always || watch.listed.is_err() {
            println!(rt; "{watched}")?;
        }
    }
    Ok(())
}
