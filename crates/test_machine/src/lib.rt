//! Tests of the machine. It has nothing but tests.
#![tactic(auto)]

#[cfg(test)]
mod codes;
#[cfg(test)]
mod costs;
#[cfg(test)]
mod locks;
#[cfg(test)]
mod numbers;
#[cfg(test)]
mod runs;
#[cfg(test)]
mod telling;
