//! Tests of live jobs: bodies that are run in many orders by many workers, pieces of another job, want of
//! memory, and programs at their limits.
#![tactic(auto)]

#[cfg(test)]
mod choosers;
#[cfg(test)]
mod driving;
#[cfg(test)]
mod folds;
#[cfg(test)]
mod foreign;
#[cfg(test)]
mod memory;
#[cfg(test)]
mod orders;
#[cfg(test)]
mod random;
#[cfg(test)]
mod rows;
#[cfg(test)]
mod sizes;
#[cfg(test)]
mod three;
#[cfg(test)]
mod unchanged;
#[cfg(test)]
mod weights;
