// The gaps and the numbers that a case names, and all fillings of these gaps that are tried.

use crate::plain::Numbers;
use evaluate::Filling;
use std::alloc::{AllocError, Global};

// Each once.
#[derive(Drop)]
pub struct Names {
    pub gaps: Vec<u64>,
    pub numbers: Vec<u64>,
}

// Gaps, and the numbers that each of them is tried with.
#[derive(Drop)]
pub struct Tried {
    gaps: Vec<u64>,
    numbers: Vec<u64>,
}

impl Names {
    pub fn none(heap: Global) -> Names {
        Names {
            gaps: Vec::new(heap),
            numbers: Vec::new(heap),
        }
    }

    // A cell; a gap past the 64 is not named.
    pub fn add_cell(&mut self, cell: [u64; 2]) -> Result<(), AllocError> {
        if cell[0] == 0 {
            add(&mut self.numbers, cell[1])
        } else if cell[1] < 64 {
            add(&mut self.gaps, cell[1])
        } else {
            Ok(())
        }
    }

    pub fn add_cells(&mut self, cells: &[[u64; 2]]) -> Result<(), AllocError> {
        for cell in cells {
            self.add_cell(*cell)?;
        }
        Ok(())
    }

    pub fn add_row(&mut self, row: &[u64]) -> Result<(), AllocError> {
        for n in row {
            add(&mut self.numbers, *n)?;
        }
        Ok(())
    }

    // All that the comparisons among some nodes name.
    pub fn add_nodes(&mut self, nodes: &[[u64; 5]]) -> Result<(), AllocError> {
        for node in nodes {
            if node[0] == 2 {
                self.add_pair(node)?;
            }
        }
        Ok(())
    }

    // The cells of a comparison; a comparison with a gap past the 64 reads as never and names nothing.
    fn add_pair(&mut self, node: &[u64; 5]) -> Result<(), AllocError> {
        let (a, b) = ([node[1], node[2]], [node[3], node[4]]);
        if is_cell(a) && is_cell(b) {
            self.add_cells(&[a, b])?;
        }
        Ok(())
    }

    // All that a node reaches.
    pub fn add_reached(&mut self, nodes: &[[u64; 5]], place: u64) -> Result<(), AllocError> {
        let Some(node) = nodes.get(place as usize) else {
            return Ok(());
        };
        let earlier = &nodes[..place as usize];
        match node[0] {
            0 | 1 => Ok(()),
            2 => self.add_pair(node),
            3 => self.add_reached(earlier, node[1]),
            _ => {
                self.add_reached(earlier, node[1])?;
                self.add_reached(earlier, node[2])
            }
        }
    }

    // The place that is told with number 9, if more than six gaps or eight numbers are named.
    pub fn nine(&self) -> Option<u64> {
        let gaps = self.gaps.len() as u64;
        let numbers = self.numbers.len() as u64;
        if gaps > 6 {
            Some(gaps)
        } else if numbers > 8 {
            Some(numbers.saturating_add(64))
        } else {
            None
        }
    }

    // Every gap with every number, and with as many others from one on as there are gaps.
    pub fn tried(&self, others: u64) -> Result<Tried, AllocError> {
        let gaps = self.gaps.clone()?;
        let mut numbers = self.numbers.clone()?;
        for i in 0..gaps.len() as u64 {
            numbers.push(others.saturating_add(i))?;
        }
        Ok(Tried { gaps, numbers })
    }
}

impl Tried {
    // How many fillings there are.
    pub fn count(&self) -> u64 {
        let mut count = 1u64;
        for _ in &self.gaps {
            count = count.saturating_mul(self.numbers.len() as u64);
        }
        count
    }

    // Fills the gaps with the numbers that the digits of f stand for; the other gaps stay.
    pub fn fill(&self, f: u64, filled: &mut Numbers) {
        let base = (self.numbers.len() as u64).max(1);
        let mut rest = f;
        for gap in &self.gaps {
            let number = self.numbers.get((rest % base) as usize);
            if let Some(place) = filled.get_mut(*gap as usize) {
                *place = number.copied().unwrap_or(0);
            }
            rest /= base;
        }
    }

    // What the gaps are filled with, as the libraries have it.
    pub fn filling(&self, filled: &Numbers) -> Filling {
        let mut filling = Filling::zeros();
        for gap in &self.gaps {
            let number = filled.get(*gap as usize).copied().unwrap_or(0);
            filling = filling.with(*gap, number).unwrap_or(filling);
        }
        filling
    }
}

fn is_cell(cell: [u64; 2]) -> bool {
    cell[0] == 0 || cell[1] < 64
}

// Adds a number that is not there yet.
fn add(numbers: &mut Vec<u64>, n: u64) -> Result<(), AllocError> {
    if !numbers.contains(&n) {
        numbers.push(n)?;
    }
    Ok(())
}
