//! Pools: worked rows, turns, and what threads see.
mod again;
mod draining;
mod drops;
mod hands;
mod lying;
mod many;
mod overlap;
mod owing;
mod places;
mod rows;
mod running;
mod serving;
mod stopped;
mod team;
mod turns;
mod values;
mod words;
