//! Valid images.

ghost use Rattle.std.specs.Prelude.{◌≡◌};
ghost use Rattle.sc_graph.specs.Links.{Tells};
ghost use Rattle.sc_graph.specs.Valid.{IsValid};

use bytecode::Image;
use sc_graph::Links;
use std::marker::Model;

/// A valid image. It stays valid for good, since nobody can write to it.
#[derive(Drop)]
pub struct Verified {
    image: Image,
    links: Links,
}

impl Model for Verified {
    ghost use Rattle.bytecode.specs.Image.{Image};
    ghost use Rattle.verifier.specs.Inside.Linked.{IsValidLinked};

    ghost Value = { Image };

    ghost view = { λ v. v.image };

    ghost invariant = { λ v. IsValidLinked v.image.program v.image.tables v.links };
}

impl Verified {
    /// An image that is known to be valid, with the links of its program.
    pub(crate) fn known(image: Image, links: Links) -> Verified
        requires valid { IsValid image.program image.tables }
        requires links { Tells image.program links }
        ensures { result ≡ image }
    {
        Verified { image, links }
    }

    /// The links of its program: the fork of each thread and of each join, the pause of each depth.
    pub fn links(&self) -> &Links
        ensures { Tells self.now.program result.now }
    {
        &self.links
    }

    /// The image, for reading only.
    pub fn image(&self) -> &Image
        ensures value { result.now ≡ self.now }
        ensures valid { IsValid self.now.program self.now.tables }
    {
        &self.image
    }
}
