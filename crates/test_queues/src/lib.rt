//! Tests of histories and the machine, of queues, ledgers, delay tables and workers, by their public calls alone: what their
//! contracts promise nobody. Each module is named after what it tests. The worked rows of scripts and schedules stand in
//! `checks/rows`, which the gate runs with the built program.
#![tactic(auto)]

#[cfg(test)]
mod balance;
#[cfg(test)]
mod check;
#[cfg(test)]
mod delay;
#[cfg(test)]
mod expect;
#[cfg(test)]
mod latch;
#[cfg(test)]
mod live;
#[cfg(test)]
mod machine;
#[cfg(test)]
mod own_threads;
#[cfg(test)]
mod patience;
#[cfg(test)]
mod seat_error;
#[cfg(test)]
mod seats;
#[cfg(test)]
mod values;
#[cfg(test)]
mod words;
#[cfg(test)]
mod worker;
