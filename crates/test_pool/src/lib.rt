//! Tests of the pool, with workers and clients in threads of their own. It has nothing but tests, and one
//! that measures. Whatever a test waits for, it waits a bounded number of turns.
#![tactic(auto)]

#[cfg(test)]
mod bench;
#[cfg(test)]
mod crowd;
#[cfg(test)]
mod door;
#[cfg(test)]
mod job_bench;
#[cfg(test)]
mod play;
#[cfg(test)]
mod players;
#[cfg(test)]
mod reading;
#[cfg(test)]
mod refused;
#[cfg(test)]
mod scene;
#[cfg(test)]
mod scenes;
#[cfg(test)]
mod shapes;
#[cfg(test)]
mod turns;
