//! Tests of races. It has nothing but tests.
#![tactic(auto)]

#[cfg(test)]
mod apart;
#[cfg(test)]
mod branches;
#[cfg(test)]
mod costs;
#[cfg(test)]
mod kernels;
#[cfg(test)]
mod listed;
#[cfg(test)]
mod schedules;
#[cfg(test)]
mod telling;
