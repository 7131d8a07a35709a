//! Configuration parameters: where they come from, and what they ask of a run.
#![tactic(auto)]

mod blanks;
mod fault;
mod given;
mod limits_fault;
mod limits_said;
mod lock_key;
mod nearest;
mod numbers;
mod pair;
mod params;
mod properties;
mod settings;
mod settings_fault;
mod slow;
mod source;
mod strategy;
mod table;
mod warnings;

pub use descriptor::Mode;
pub use fault::ParamsFault;
pub use given::modes;
pub use limits_fault::LimitsFault;
pub use limits_said::lock_limits;
pub use lock_key::lock_limited;
pub use numbers::holders_in;
pub use pair::{Pair, pair_of, property_of};
pub use params::{Params, get_over, limiting_keys};
pub use settings::Settings;
pub use settings_fault::SettingsFault;
pub use source::Source;
pub use warnings::Warnings;
