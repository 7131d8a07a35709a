//! Lanes: that a number is put, taken and stolen at all, and that three threads may do so at once.

ghost use Rattle.std.specs.Prelude.{◌≡◌};

use crate::sharing::share_out;
use descriptor::NodeId;
use ready_deques::{Lane, Thief};
use std::alloc::Global;
use std::thread::{Threads, join};
use unique_id::both;

/// How many numbers the owner puts while thieves steal.
const NUMBERS: u16 = 3000;

/// How often a thief tries to steal.
const TURNS: u32 = 20_000;

/// What was got, as a number: 0 for none.
fn number(got: Option<NodeId>) -> u64 {
    match got {
        Some(node) => u64::from(node.number()),
        None => 0,
    }
}

/// Whether two numbers that are put come out, the first to the owner and the second to the thief.
fn come_out(lane: &mut Lane, thief: &mut Thief) -> bool
    ensures lane { lane.new.which ≡ lane.old.which }
    ensures thieves { lane.new.thieves ≡ lane.old.thieves }
    ensures thief { thief.new.which ≡ thief.old.which }
{
    let are_put = lane.put(NodeId::new(3)).is_ok() && lane.put(NodeId::new(5)).is_ok();
    let (taken, stolen) = (number(lane.take()), number(thief.steal()));
    are_put && taken == 3 && stolen == 5
}

/// Whether nothing is left then, and a number can be put once more.
fn is_empty(lane: &mut Lane, thief: &mut Thief) -> bool
    ensures lane { lane.new.which ≡ lane.old.which }
    ensures thieves { lane.new.thieves ≡ lane.old.thieves }
    ensures thief { thief.new.which ≡ thief.old.which }
{
    let is_left = lane.take().is_some() || thief.steal().is_some();
    let is_put = lane.put(NodeId::new(7)).is_ok();
    is_put && !is_left
}

/// How many numbers are left at last, where all of this is so.
fn left_of_three<R: Threads>(rt: &R, alloc: Global) -> Option<usize> {
    let mut lane = Lane::new(alloc).ok()?;
    let mut thief = lane.thief().ok()?;
    let is_so = come_out(&mut lane, &mut thief) && is_empty(&mut lane, &mut thief);
    let left = share_out(rt, &mut lane, thief, TURNS);
    is_so.then_some(left)
}

/// Puts the numbers from 1, and takes a third as often; the sum of what it took, or none where a number was refused.
fn puts_and_takes(lane: &mut Lane) -> Option<u64> {
    let mut sum = 0;
    for n in 1..=NUMBERS {
        if lane.put(NodeId::new(n)).is_err() {
            return None;
        }
        if n % 3 == 0 {
            sum = u64::wrapping_add(sum, number(lane.take()));
        }
    }
    Some(sum)
}

/// The sum of what a thief steals.
fn steals(thief: &mut Thief) -> u64 {
    let mut sum = 0;
    for _turn in 0..TURNS {
        sum = u64::wrapping_add(sum, number(thief.steal()));
    }
    sum
}

/// The sum of what is left.
fn left_in(lane: &mut Lane) -> u64 {
    let mut sum = 0;
    for _turn in 0..=NUMBERS {
        sum = u64::wrapping_add(sum, number(lane.take()));
    }
    sum
}

/// The sum of what three threads got of a lane, and of what they left, or none where a number was refused.
fn got_by_three<R: Threads>(rt: &R, alloc: Global) -> Option<u64> {
    let mut lane = Lane::new(alloc).ok()?;
    let (mut first, mut second) = both(lane.thief(), lane.thief()).ok()?;
    let (own, (a, b)) = join(
        rt,
        || puts_and_takes(&mut lane),
        || join(rt, || steals(&mut first), || steals(&mut second)),
    );
    let left = left_in(&mut lane);
    let rest = u64::wrapping_add(left, u64::wrapping_add(a, b));
    Some(u64::wrapping_add(own?, rest))
}

pub(crate) fn numbers_come_out_once<R: Threads>(rt: &R, alloc: Global) -> bool {
    left_of_three(rt, alloc) == Some(0) && got_by_three(rt, alloc) == Some(4_501_500)
}
