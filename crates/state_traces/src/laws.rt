//! The law of traces that tell nothing more. The function does nothing: its contract is the law.

ghost use Rattle.std.specs.Prelude.{◌↔◌, ℕ, List};
ghost use Rattle.bytecode.specs.Image.{Image};
ghost use Rattle.trace_player.specs.Trace.{End};
ghost use Rattle.trace_player.specs.Trace as plain;
ghost use Rattle.state_traces.specs.Trace.{Trace, no_words};

/// Where there are no words, the trace of lines is theirs.
pub fn without_words()
    ensures { (image : Image) (lines out : List (List ℕ)) (end : End)
        → Trace no_words image lines out end ↔ plain.Trace image lines out end }
{}
