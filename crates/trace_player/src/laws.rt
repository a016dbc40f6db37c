//! The law of traces. The function does nothing: its contract is the law.

ghost use Rattle.std.specs.Prelude.{◌≡◌, ℕ, List};
ghost use Rattle.bytecode.specs.Image.{Image};
ghost use Rattle.trace_player.specs.Trace.{End, Trace};

/// The same lines have one trace by an image: what is shown for them, and where it ends, follow
/// from the lines alone.
pub fn one_trace()
    ensures { (image : Image) (lines out other : List (List ℕ)) (end last : End)
        → Trace image lines out end → Trace image lines other last → (other ≡ out) × (last ≡ end) }
{}
