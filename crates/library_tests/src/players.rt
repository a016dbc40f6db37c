//! Tests of the player: traces by 1 to 8 workers, what their gate meets, and what observers see of them.

mod failing;
mod gates;
mod observed;
mod traces;
