//! The tests that the words of a command name: each is tried, and what is told of it.

mod loading;
mod naming;
mod saying;
mod states;
mod trying;
mod verdict;

pub use trying::try_tests;
