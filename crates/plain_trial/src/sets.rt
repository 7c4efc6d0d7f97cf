// Sets that take little memory.
use std::alloc::{AllocError, Global};
use std::slice;

// Its members in rising order, each once. A BTreeSet of as many takes twice the memory or more.
#[derive(Clone, Drop)]
pub struct Set<T> {
    members: Vec<T>,
}

impl<T: Ord + Copy> Set<T> {
    pub fn new(heap: Global) -> Set<T> {
        Set {
            members: Vec::new(heap),
        }
    }

    pub fn len(&self) -> usize {
        self.members.len()
    }

    pub fn contains(&self, member: &T) -> bool {
        self.members.binary_search(member).is_ok()
    }

    pub fn iter(&self) -> slice::Iter<'_, T> {
        self.members.iter()
    }

    pub fn insert(&mut self, member: T) -> Result<(), AllocError> {
        if let Err(place) = self.members.binary_search(&member) {
            self.members.insert(place, member)?;
        }
        Ok(())
    }
}

impl<'a, T: Ord + Copy + 'a> Extend<&'a T> for Set<T> {
    // With one sort for all that are new, as an insertion moves what stands above it.
    fn extend<U: IntoIterator<Item = &'a T>>(&mut self, members: U) -> Result<(), AllocError> {
        let mut absent = Vec::new(*self.members.allocator());
        for member in members {
            if !self.contains(member) {
                absent.push(*member)?;
            }
        }
        self.members.append(&mut absent)?;
        self.members.sort()?;
        self.members.dedup();
        Ok(())
    }
}
