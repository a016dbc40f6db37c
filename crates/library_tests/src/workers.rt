//! Tests of the workers of a tick: whoever takes which step, its end is the same, and they work at once.

mod gates;
mod pausing;
mod ticks;
