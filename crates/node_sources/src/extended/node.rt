//! Where a node of the program of a reduced chart comes from.

ghost use Rattle.std.specs.Prelude.{◌≡◌, false};

use crate::Origin;

/// Where a node of the program of a reduced chart comes from in the author's text, and whether it is made: then no
/// element of his does what it does, and the place is that of the element for which it is made.
#[derive(Clone, Copy)]
pub struct AuthorNode {
    pub origin: Origin,
    pub is_made: bool,
}

impl AuthorNode {
    /// What the author's element at this origin does itself.
    pub fn own(origin: Origin) -> AuthorNode
        ensures { result ≡ record { origin = origin; is_made = false } }
    {
        AuthorNode {
            origin,
            is_made: false,
        }
    }
}
