//! The thread pool of a run: threads that work at a running table, the gates at which they wait for their seats, and the
//! dispatcher, which shows the observer what they did.
#![tactic(auto)]

mod dispatching;
mod gate;
mod pool;
mod running;
mod serving;

pub use dispatching::{dispatch, dispatch_one};
pub use gate::{FinishedSeat, FreeSeat, Gate, SharedTable, TableBrand};
pub use pool::Pool;
pub use running::{DispatcherState, NotBegun, Unrun, run_in};
pub use serving::serve;
