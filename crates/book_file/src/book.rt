// A book in memory, read from bytes and written as bytes.
ghost use Rattle.std.specs.Prelude.{◌≡◌, ◌+◌, ◌*◌, ◌^◌, ◌≤◌, None, length, drop, slice_index};
ghost use Rattle.condition.specs.Store.{count};
ghost use Rattle.list.specs.Layout.{check_told};
ghost use Rattle.file_bytes.specs.Numbers.{AllBelow, bytes_of};
ghost use Rattle.file_bytes.specs.Listing.{lists_long, AllThere};
ghost use Rattle.std.proofs.Props.{props};

use condition::Refusal;
use file_bytes::{Input, put_numbers, read_lists, read_nodes};
use list::check;
use std::alloc::{AllocError, Global};

// The most lines of a list in a book.
const MOST_LINES: u64 = 64;

// The lists and the store.
#[derive(Drop)]
pub struct Book {
    pub lists: Vec<u64>,
    pub nodes: Vec<u64>,
    pub ghost told: { check_told lists.items nodes.items ≡ None } by { Prim.hlevel props },
    pub ghost there: { AllThere 64 (slice_index lists.items 0) (bytes_of (drop 2 lists.items)) },
    pub ghost exact: { length lists.items ≡ 2 + lists_long (slice_index lists.items 0) (bytes_of (drop 2 lists.items)) },
    pub ghost few: { count nodes.items ≤ 131072 },
    pub ghost whole: { length nodes.items ≡ 1 + 5 * count nodes.items },
    pub ghost small_lists: { AllBelow (2 ^ 32) lists.items },
    pub ghost small_nodes: { AllBelow (2 ^ 32) nodes.items },
}

impl Book {
    ghost use Rattle.std.specs.Prelude.{ℕ, List, IfErr, IfOk};
    ghost use Rattle.condition.specs.declared.Refusal.TheVariants.{NoMemory};
    ghost use Rattle.book_file.specs.Books.{book_bytes, IsBook};

    // The book in a file's bytes, or why they are none.
    pub fn read(heap: Global, bytes: &[u8]) -> Result<Book, Refusal>
        ensures written { IfOk result (λ b. bytes.now ≡ book_bytes b.lists.items b.nodes.items) }
        ensures read_back { (lists nodes : List ℕ) → IsBook lists nodes → bytes.now ≡ book_bytes lists nodes → IfOk result (λ b. (b.lists.items ≡ lists) × (b.nodes.items ≡ nodes)) }
        ensures accepted { (lists nodes : List ℕ) → IsBook lists nodes → bytes.now ≡ book_bytes lists nodes → IfErr result (λ e. e ≡ NoMemory) }
    {
        let mut input = Input::new(bytes);
        let count = input.number().ok_or(Refusal::BadLists(0))?;
        let lists = read_lists(heap, &mut input, MOST_LINES)?;
        let nodes = read_nodes(heap, &mut input, count)?;
        if input.left() > 0 {
            return Err(Refusal::BadStore(count));
        }
        check(&lists, &nodes)?;
        Ok(Book { lists, nodes })
    }

    // The bytes of the file that holds it.
    pub fn bytes(&self, heap: Global) -> Result<Vec<u8>, AllocError>
        ensures { IfOk result (λ v. v.items ≡ book_bytes self.now.lists.items self.now.nodes.items) }
    {
        let mut bytes = Vec::new(heap);
        put_numbers(&mut bytes, &self.nodes[..1])?;
        put_numbers(&mut bytes, &self.lists)?;
        put_numbers(&mut bytes, &self.nodes[1..])?;
        Ok(bytes)
    }
}
