//! Two threads take from one lane.

ghost use Rattle.std.specs.Prelude.{◌≡◌, ◌+◌, ℕ, List, length};
ghost use Rattle.ready_deques.specs.Times.{times};

use ready_deques::{Lane, Thief};
use std::thread::{Threads, join_mut};

/// The owner takes so often.
fn take(lane: &mut Lane, turns: u32)
    ensures which { lane.new.which ≡ lane.old.which }
    ensures thieves { lane.new.thieves ≡ lane.old.thieves }
    ensures put { lane.new.put ≡ lane.old.put }
{
    for _turn in 0..turns {
        let _ = lane.take();
    }
}

/// A thief steals so often.
fn steal(thief: &mut Thief, turns: u32)
    ensures { thief.new.which ≡ thief.old.which }
{
    for _turn in 0..turns {
        let _ = thief.steal();
    }
}

/// The owner and the only thief of a lane take from it, each in a thread of its own. It answers how
/// many numbers are left: these and those that were taken are, up to order, those that were put.
pub fn share_out<R: Threads>(rt: &R, lane: &mut Lane, thief: Thief, turns: u32) -> usize
    requires of { thief.which ≡ lane.old.which }
    requires only { lane.old.thieves ≡ 1 }
    ensures put { lane.new.put ≡ lane.old.put }
    ensures rule { (left : List ℕ) × (length left ≡ result)
        × ((x : ℕ) → times x lane.new.taken + times x left ≡ times x lane.new.put) }
{
    let mut thief = thief;
    join_mut(
        rt,
        &mut || take(lane, turns),
        &mut || steal(&mut thief, turns),
    );
    lane.join(thief);
    lane.held()
}
