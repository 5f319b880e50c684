//! Uses of the heaps, each proved from the contracts of `dary_heap` and `indexed_heap` alone. Each module begins with
//! what it does. `README.md` has a row for each, and says how to take them along.
#![tactic(auto)]

pub mod calling;
pub mod from_std;
pub mod greatest;
pub mod merge;
pub mod scheduler;
pub mod simulation;
pub mod timers;
