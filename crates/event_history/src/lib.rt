//! What a history of a run is, and what follows from a history alone. There is no code here, only
//! definitions and theorems.
#![tactic(auto)]
