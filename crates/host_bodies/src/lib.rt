//! Bodies of tests that a host runs, a process at the other end of a channel: it is asked for each by a line, and answers
//! by a line.
#![tactic(auto)]

mod answer;
mod channel;
mod heard;
mod host_job;
mod jobs;
mod line;
mod silence;

pub use answer::LONGEST_TEXT;
pub use channel::Channel;
pub use heard::{Answer, Heard};
pub use host_job::HostJob;
pub use jobs::host_jobs;
pub use silence::Silence;
