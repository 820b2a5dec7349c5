//! Tests of worlds: lines of tenants that are answered in several orders, alone and side by side; events that
//! aren't enabled; what a chooser is told and what its choices come to; random events.
#![tactic(auto)]

#[cfg(test)]
mod agreeing;
#[cfg(test)]
mod counts;
#[cfg(test)]
mod drains;
#[cfg(test)]
mod events;
#[cfg(test)]
mod random;
#[cfg(test)]
mod refused;
#[cfg(test)]
mod tenants;
