//! The factory in a worker's hand.

ghost use Rattle.std.specs.Prelude.{◌≡◌, ◌<◌, Some};
ghost use Rattle.descriptor.specs.Nodes.{size};
ghost use Rattle.scheduling.specs.Rows.{is_of_hand as is_of_hand_of, one_more as one_more_of};
ghost use Rattle.scheduling.specs.Rows.{waits_for as waits_for_of, waits_no_more as waits_no_more_of};
ghost use Rattle.scheduling.specs.declared.seat.Hand.{Hand as HandValue};

use crate::choices::is_same;
use crate::seat::Hand;
use descriptor::NodeId;
use resource_locks::Plan;

/// Whether a node is one of the dynamic tests of the factory in hand, if there is one.
pub fn is_of_hand(plan: &Plan, hand: &Option<Hand>, node: NodeId) -> bool
    requires { node < size plan.now.tree }
    ensures { result ≡ is_of_hand_of plan.now hand.now node }
{
    match hand {
        None => true,
        Some(hand) => plan.tree().parent(node) == Some(hand.factory),
    }
}

/// The factory in hand, if there is one, with one more dynamic test registered.
pub fn one_more(hand: Option<Hand>) -> Option<Hand>
    requires { (h : HandValue) → hand ≡ Some h → h.registered < 65535 }
    ensures { result ≡ one_more_of hand }
{
    let hand = hand?;
    Some(Hand {
        factory: hand.factory,
        registered: hand.registered + 1,
        waiting: hand.waiting,
    })
}

/// The factory in hand, if there is one, after this dynamic test of it is offered: it waits for one
/// that is executed in the same thread.
pub fn waits_for(plan: &Plan, child: NodeId, hand: Option<Hand>) -> Option<Hand>
    requires { child < size plan.now.tree }
    ensures { result ≡ waits_for_of plan.now child hand }
{
    let hand = hand?;
    let waiting = if is_same(plan, child) {
        Some(child)
    } else {
        hand.waiting
    };
    Some(Hand {
        factory: hand.factory,
        registered: hand.registered,
        waiting,
    })
}

/// The factory in hand, if there is one, after this node is settled: it waits for it no longer.
pub fn waits_no_more(node: NodeId, hand: Option<Hand>) -> Option<Hand>
    ensures { result ≡ waits_no_more_of node hand }
{
    let hand = hand?;
    let waiting = match hand.waiting {
        Some(child) if child == node => None,
        other => other,
    };
    Some(Hand {
        factory: hand.factory,
        registered: hand.registered,
        waiting,
    })
}
