//! Laws of traces under rules. The functions do nothing: their contracts are the laws.

ghost use Rattle.std.specs.Prelude.{◌≡◌, ◌↔◌, ◌++◌, ℕ, List, false};
ghost use Rattle.bytecode.specs.Image.{Image};
ghost use Rattle.trace_player.specs.Trace.{End, Good};
ghost use Rattle.trace_player.specs.Trace as plain;
ghost use Rattle.ruled_runs.specs.declared.traces.place.RunPlace.{RunPlace};
ghost use Rattle.ruled_runs.specs.declared.traces.rules.Rules.{Rules};
ghost use Rattle.ruled_runs.specs.Trace.{Goes, at_first, no_rules, with_lines};

/// Where there are no rules, the trace of lines from the first place on is theirs.
pub fn without_rules()
    ensures { (image : Image) (lines out : List (List ℕ)) (end : End)
        → ((last : RunPlace) × Goes no_rules image (at_first image.program) lines out end last)
        ↔ plain.Trace image lines out end }
{}

/// Where no line is passed over, a trace and another one that goes on where it ended, whatever it counts its lines
/// from, make one trace of all their lines, which ends as the other one does.
pub fn resumed_traces()
    ensures { (rules : Rules) (image : Image) (from middle last : RunPlace) (n : ℕ)
        (first second out more : List (List ℕ))
        → rules.skips ≡ false → Goes rules image from first out Good middle
        → Goes rules image (with_lines middle n) second more Good last
        → (m : ℕ) × Goes rules image from (first ++ second) (out ++ more) Good (with_lines last m) }
{}
