//! What a worker does at its seat of a running table until the run is over, and the place at which it runs jobs.
#![tactic(auto)]

mod answering;
mod kept_place;
mod place;
mod pulling;
mod scan;
mod task_steps;
mod working;

pub use kept_place::{KeptPlace, PlacesBrand, lend_places, take_back};
pub use place::Place;
pub use working::work;
