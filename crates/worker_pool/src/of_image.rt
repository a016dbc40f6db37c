//! The image that workers share, as a ghost name.

ghost use Rattle.bytecode.specs.Image.{Image};

use std::marker::Brand;

/// The image that workers share, which whoever opens what they share picks.
pub trait OfImage {
    ghost image: { Image };
}

impl OfImage for Brand {
    ghost use Rattle.std.specs.Prelude.{[]};

    ghost image = { record {
      program = record { variables = []; threads = []; nodes = [] };
      tables = record { priorities = []; weights = []; end_bits = []; bounds = []; budget = 0 };
    } };
}
