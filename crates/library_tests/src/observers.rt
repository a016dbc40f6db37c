//! Tests of observers: what they see of ticks that are published, also from another thread.

mod looks;
mod outputs;
mod seats;
mod shows;
mod threads;
mod trials;
