//! Tests of what the crates below the session are told and answer: the reader, the checker, the
//! children of a body, rights over cells, and the book.
#![tactic(auto)]

#[cfg(test)]
mod awaiting;
#[cfg(test)]
mod books;
#[cfg(test)]
mod checkpoints;
#[cfg(test)]
mod checks;
#[cfg(test)]
mod children;
#[cfg(test)]
mod declarations;
#[cfg(test)]
mod held;
#[cfg(test)]
mod limits;
#[cfg(test)]
mod modes;
#[cfg(test)]
mod programs;
#[cfg(test)]
mod reading;
#[cfg(test)]
mod rights;
#[cfg(test)]
mod rows;
#[cfg(test)]
mod table;
