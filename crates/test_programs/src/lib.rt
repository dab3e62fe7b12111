//! Tests of ready queues and pools, of races, of recordings and of the program's commands, by their public calls alone: what their contracts
//! promise nobody. Each module is named after what it tests. The worked rows of scripts and plans stand in `checks/rows`, which the
//! gate runs with the built program.
#![tactic(auto)]

#[cfg(test)]
mod expect;
#[cfg(test)]
mod looks;
#[cfg(test)]
mod mains;
#[cfg(test)]
mod own_log;
#[cfg(test)]
mod own_pool;
#[cfg(test)]
mod patience;
#[cfg(test)]
mod pool;
#[cfg(test)]
mod race;
#[cfg(test)]
mod ready;
#[cfg(test)]
mod recording;
