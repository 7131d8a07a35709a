//! The circle of nodes round which a worker looks.

ghost use Rattle.std.specs.Prelude.{◌≡◌, ◌<◌, ◌∷◌, [], IfSome, IfNone, IsPermutation};
ghost use Rattle.std.specs.List.{All, range_with_len};
ghost use Rattle.node_sources.specs.Circles.{circle_behind};

use descriptor::NodeId;
use std::marker::Model;

/// The numbers of the nodes that are left of one time round: those from one number to below
/// another, and then those below a third.
#[derive(Drop)]
pub struct Circle {
    next: usize,
    end: usize,
    below: usize,
}

impl Model for Circle {
    ghost use Rattle.std.specs.Prelude.{ℕ, List};
    ghost use Rattle.node_sources.specs.Circles.{left_of_circle};

    ghost Value = { List ℕ };

    ghost view = { λ c. left_of_circle c.next c.end c.below };
}

impl Circle {
    /// Once round so many nodes, each once, from the one behind this node on.
    pub fn behind(last: NodeId, nodes: usize) -> Circle
        ensures round { result ≡ circle_behind last nodes }
        ensures each_once { IsPermutation (range_with_len 0 nodes) result }
        ensures inside { All (λ n. n < nodes) result }
    {
        let next = last.index() + 1;
        Circle {
            next,
            end: nodes,
            below: next.min(nodes),
        }
    }

    /// The next number, if one is left.
    pub fn next(&mut self) -> Option<usize>
        ensures some { IfSome result (λ n. self.old ≡ n ∷ self.new) }
        ensures none { IfNone result ((self.old ≡ []) × (self.new ≡ [])) }
    {
        if self.next < self.end {
            let number = self.next;
            self.next += 1;
            return Some(number);
        }
        if self.below == 0 {
            return None;
        }
        self.next = 1;
        self.end = self.below;
        self.below = 0;
        Some(0)
    }
}
