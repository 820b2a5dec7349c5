//! Tests of sessions: what no contract of `ot_session` says, or says for every device alike. It has nothing
//! but tests. Sessions that are lines in and replies out are files in `tests/sessions`.
#![tactic(auto)]

#[cfg(test)]
mod books;
#[cfg(test)]
mod connections;
#[cfg(test)]
mod devices;
#[cfg(test)]
mod door;
#[cfg(test)]
mod fakes;
#[cfg(test)]
mod greetings;
#[cfg(test)]
mod memory;
#[cfg(test)]
mod sessions;
