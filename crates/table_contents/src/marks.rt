//! The marks that the seats of a run keep.

ghost use Rattle.std.specs.Prelude.{◌≡◌, ◌+◌, ◌≤◌, IfOk, false, replicate};

use descriptor::Marks;
use std::alloc::{AllocError, Global};

/// The marks of all seats of a run.
#[derive(Drop)]
pub struct SeatMarks {
    /// The dispatcher's, one for each node.
    pub ended: Marks,
    /// The dispatcher's, one for each slot.
    pub taken: Marks,
    /// For each worker one for each slot.
    pub moved: Vec<Marks>,
}

/// For each of so many workers a mark for each slot, none of which is set.
fn unmoved(alloc: Global, slots: usize, workers: u8) -> Result<Vec<Marks>, AllocError>
    ensures { IfOk result (λ all. all.items ≡ replicate workers (replicate slots false)) }
{
    let mut all = Vec::with_capacity(alloc, usize::from(workers))?;
    for _worker in 0..workers {
        all.push(Marks::none(alloc, slots)?)?;
    }
    Ok(all)
}

impl SeatMarks {
    /// Those of a run of a plan of so many nodes, none of which is set.
    pub(crate) fn none(alloc: Global, nodes: usize, workers: u8) -> Result<SeatMarks, AllocError>
        requires { nodes ≤ 16384 }
        ensures ended { IfOk result (λ marks. marks.ended ≡ replicate nodes false) }
        ensures taken { IfOk result (λ marks. marks.taken ≡ replicate (nodes + nodes) false) }
        ensures moved { IfOk result (λ marks. marks.moved.items ≡ replicate workers (replicate (nodes + nodes) false)) }
    {
        let moved = unmoved(alloc, nodes + nodes, workers)?;
        let ended = Marks::none(alloc, nodes)?;
        let taken = Marks::none(alloc, nodes + nodes)?;
        Ok(SeatMarks {
            ended,
            taken,
            moved,
        })
    }
}
