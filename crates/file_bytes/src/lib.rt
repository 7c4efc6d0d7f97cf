// The binary format of the programs: numbers of four bytes, lists, nodes.
#![tactic(auto)]

ghost use Rattle.std.specs.Prelude.{◌≡◌, ◌*◌, ◌≤◌, ◌⊎◌, [], ◌∷◌, length, IfErr, IfOk, OnOk, slice_index};
ghost use Rattle.condition.specs.declared.Refusal.TheVariants.{BadLists, NoMemory};
ghost use Rattle.file_bytes.specs.Numbers.{number_at, Taken, ReadOn, Cut, NodesTold, AllBelow, WrittenRead, ReadWritten};
ghost use Rattle.file_bytes.specs.Listing.{list_long, lists_long, ListThere, AllThere, EachTold, lists_in_file, ListsThere, ListsTold};

use condition::{MOST_NODES, Refusal};
use std::alloc::Global;

mod writing;

pub use writing::{put, put_numbers};

// The bytes of a file that are left to read.
#[derive(Clone, Copy)]
pub struct Input<'a> {
    rest: &'a [u8],
    pub ghost bytes: { AllBelow 256 rest.now },
}

impl<'a> Input<'a> {
    pub fn new(bytes: &'a [u8]) -> Input<'a>
        ensures { result.rest.now ≡ bytes.now }
    {
        Input { rest: bytes }
    }

    // How many bytes are left.
    pub fn left(&self) -> usize
        ensures { result ≡ length self.now.rest.now }
    {
        self.rest.len()
    }

    // The next byte; nothing where none is left.
    pub fn byte(&mut self) -> Option<u8>
        ensures { Taken 1 self.old.rest.now (λ bs. slice_index bs 0) result self.new.rest.now }
    {
        let (first, behind) = self.rest.split_first()?;
        self.rest = behind;
        Some(*first)
    }

    // The number in the next four bytes, low byte first; nothing is read where they are not all there.
    pub fn number(&mut self) -> Option<u64>
        ensures { Taken 4 self.old.rest.now number_at result self.new.rest.now }
    {
        let (four, rest) = self.rest.split_first_chunk::<4>()?;
        self.rest = rest;
        Some(u64::from(u32::from_le_bytes(*four)))
    }

    // The next number, put behind those in `numbers`; refused with `missing` where none is left.
    pub fn next(&mut self, numbers: &mut Vec<u64>, missing: Refusal) -> Result<u64, Refusal>
        ensures read { IfOk result (λ n. (n ≡ number_at self.old.rest.now) × ReadOn 1 self.old.rest.now numbers.old.items self.new.rest.now numbers.new.items) }
        ensures refused { IfErr result (Cut 1 self.old.rest.now missing) }
    {
        let number = self.number().ok_or(missing)?;
        numbers.push(number)?;
        Ok(number)
    }

    // The next n numbers, put behind those in `numbers`; refused with `missing` where fewer are left.
    pub fn numbers(
        &mut self,
        n: u64,
        numbers: &mut Vec<u64>,
        missing: Refusal,
    ) -> Result<(), Refusal>
        ensures read { OnOk result (ReadOn n self.old.rest.now numbers.old.items self.new.rest.now numbers.new.items) }
        ensures refused { IfErr result (Cut n self.old.rest.now missing) }
    {
        for _ in 0..n {
            self.next(numbers, missing)?;
        }
        Ok(())
    }
}

// The lists of a file: their count, the node of what is known, and each list with at most `most` lines, and at most 64.
pub fn read_lists(heap: Global, input: &mut Input, most: u64) -> Result<Vec<u64>, Refusal>
    ensures read { IfOk result (λ v. ReadOn (lists_in_file input.old.rest.now) input.old.rest.now [] input.new.rest.now v.items) }
    ensures there { OnOk result (ListsThere most input.old.rest.now) }
    ensures refused { IfErr result (ListsTold most input.old.rest.now) }
{
    let mut lists = Vec::new(heap);
    let count = input.next(&mut lists, Refusal::BadLists(0))?;
    input.next(&mut lists, Refusal::BadLists(0))?;
    if count < 1 {
        return Err(Refusal::BadLists(0));
    }
    if count > 8 {
        return Err(Refusal::BadLists(8));
    }
    read_each(input, count, most.min(64), &mut lists)?;
    Ok(lists)
}

// As many lists as `count` says, behind what is in `lists`.
fn read_each(input: &mut Input, count: u64, most: u64, lists: &mut Vec<u64>) -> Result<(), Refusal>
    requires { most ≤ 64 }
    ensures read { OnOk result (ReadOn (lists_long count input.old.rest.now) input.old.rest.now lists.old.items input.new.rest.now lists.new.items) }
    ensures there { OnOk result (AllThere most count input.old.rest.now) }
    ensures refused { IfErr result (EachTold most count input.old.rest.now) }
{
    for i in 0..count {
        read_list(input, i, most, lists)?;
    }
    Ok(())
}

// List number i: its lines, its columns and the lines, behind what is in `lists`.
fn read_list(input: &mut Input, i: u64, most: u64, lists: &mut Vec<u64>) -> Result<(), Refusal>
    requires { most ≤ 64 }
    ensures read { OnOk result (ReadOn (list_long input.old.rest.now) input.old.rest.now lists.old.items input.new.rest.now lists.new.items) }
    ensures there { OnOk result (ListThere most input.old.rest.now) }
    ensures refused { IfErr result (λ e. (e ≡ NoMemory) ⊎ ((e ≡ BadLists i) × (ListThere most input.old.rest.now → ⊥))) }
{
    let bad = Refusal::BadLists(i);
    let lines = input.next(lists, bad)?;
    let columns = input.next(lists, bad)?;
    if lines > most || columns < 1 || columns > 4 {
        return Err(bad);
    }
    input.numbers(lines * (1 + 2 * columns), lists, bad)?;
    Ok(())
}

// A store of `count` nodes: the count, and five numbers of the file a node.
pub fn read_nodes(heap: Global, input: &mut Input, count: u64) -> Result<Vec<u64>, Refusal>
    ensures few { OnOk result (count ≤ 131072) }
    ensures read { IfOk result (λ v. ReadOn (5 * count) input.old.rest.now (count ∷ []) input.new.rest.now v.items) }
    ensures refused { IfErr result (NodesTold count input.old.rest.now) }
{
    if count > MOST_NODES {
        return Err(Refusal::BadStore(count));
    }
    let mut nodes = Vec::new(heap);
    nodes.push(count)?;
    input.numbers(5 * count, &mut nodes, Refusal::BadStore(count))?;
    Ok(nodes)
}

// What was written is read back: see specs/Numbers.antt.
pub fn written_read()
    ensures { WrittenRead }
{}

// What was read is written as it was: see specs/Numbers.antt.
pub fn read_written()
    ensures { ReadWritten }
{}
