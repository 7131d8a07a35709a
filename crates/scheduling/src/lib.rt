#![tactic(auto)]

//! The words of a run, what the plan decides for a worker, the steps of workers and dispatcher, and
//! what every state keeps.

mod answer;
mod cancelling;
mod children;
mod choices;
mod events;
mod guards;
mod hands;
mod jobs;
mod keys;
mod links;
mod lock_word;
mod notes;
mod offers;
mod opening;
mod schedule;
mod seat;
mod settling;
mod status;
mod step;
mod task;
mod turns;

pub use answer::Answer;
pub use cancelling::{due_notice, due_raise};
pub use children::due_child;
pub use choices::{
    admits, after_finish, after_run, after_start, awaited, back_to, begins, claims, ending,
    ends_or_free, given_back, giving, is_pulled, is_same, is_same_word, key_at_place,
    limit_at_place, lock_after, mode_at_place, next_spare, offered_to, pulled_result, taken,
    weighed,
};
pub use events::{after_draw, after_show, due_event, named_by};
pub use guards::{DueGuard, counted_off, due_guard};
pub use hands::{is_of_hand, one_more, waits_for, waits_no_more};
pub use jobs::{NodeJobs, jobs_of};
pub use keys::{after_back, after_try, due_back, due_give_up, due_take, due_weigh};
pub use lock_word::LockWord;
pub use notes::skip_note;
pub use offers::{after_offer, due_offer};
pub use opening::{counters_at_start, seats_at_start};
pub use schedule::{
    closing_action, hand_action, is_open, lowest_closing, lowest_opening, opening_action, taking,
};
pub use seat::{Hand, Seat};
pub use settling::{due_look, due_settle};
pub use status::NodeStatus;
pub use step::{Action, Actor, Step};
pub use task::{Closing, Opening, Task};
pub use turns::{Turns, after_settle, decided};
