//! Which outputs a tick ends with.
use crate::observers::shows::{are, end_with};
use crate::samples::valid;
use std::alloc::Global;

// One thread that ends at once, over the Int variables `y`, an output, `a`, which is local, and `x` and `B`, outputs.
const DECLARED: [u8; 47] = [
    83, 67, 67, 66, 2, 4, 0, 1, 1, 1, 121, 2, 1, 1, 97, 1, 1, 1, 120, 1, 1, 1, 66, 1, 0, 255, 255,
    0, 0, 0, 0, 0, 0, 1, 0, 0, 0, 0, 0, 1, 0, 1, 0, 1, 0, 0, 0,
];

fn are_by_name(alloc: Global) -> bool {
    let Some(image) = valid(alloc, &DECLARED) else {
        return false;
    };
    match end_with(alloc, image.get(), &[1, 2, 3, 4]) {
        Some(end) => are(end.outputs(), &[(b'B', 4), (b'x', 3), (b'y', 1)]),
        None => false,
    }
}

#[test]
fn outputs_alone_are_shown_by_name(rt: HostRuntime) {
    assert!(rt; are_by_name(rt.alloc()));
}
