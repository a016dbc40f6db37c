//! Tests of what neither a command nor a row shows: of the workers of a tick, of the players that run them, of
//! observers in threads of their own, of streams that fail, and of faults explained.
#![tactic(auto)]

#[cfg(test)]
mod faults;
#[cfg(test)]
mod gates;
#[cfg(test)]
mod observers;
#[cfg(test)]
mod players;
#[cfg(test)]
mod samples;
#[cfg(test)]
mod streams;
#[cfg(test)]
mod workers;
