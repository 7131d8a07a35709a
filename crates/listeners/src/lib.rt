//! Who is told of the events of a run.
#![tactic(auto)]

mod audience;
mod event_list;
mod listener;
mod observer;
mod recorder;

pub use audience::{Audience, TooManyListeners, text_with};
pub use event_list::EventList;
pub use listener::Listener;
pub use observer::{Observer, ends_plan, is_finish};
pub use recorder::Recorder;
