// Memory for asking.
ghost use Rattle.std.specs.Prelude.{◌≡◌, ◌++◌, replicate, IfOk};
ghost use Rattle.answer.specs.Entry.{room_size};

use std::alloc::{AllocError, Global};

// No question that is answered costs more.
const MOST_COST: u64 = 65536;

// The nodes, and zeros behind them: room for as many nodes as asking a question of that cost may add.
pub fn with_room(heap: Global, nodes: &[u64], cost: u64) -> Result<Vec<u64>, AllocError>
    ensures { IfOk result (λ room. room.items ≡ nodes.now ++ replicate (room_size cost) 0) }
{
    let more = 5 * (cost.min(MOST_COST) as usize + 2);
    let mut room = Vec::from_slice(heap, nodes)?;
    room.resize(nodes.len() + more, 0)?;
    Ok(room)
}
