//! The law of texts of configurations. The function does nothing: its contract is the law.

ghost use Rattle.std.specs.Prelude.{◌≡◌, ℕ, List};
ghost use Rattle.ruled_runs.specs.Texts.{IsSaved};
ghost use Rattle.sc_graph.specs.declared.control.Control.{Control};

/// A text holds one configuration, and the number of one tick.
pub fn one_control()
    ensures { (text : List ℕ) (t u : ℕ) (c d : Control) → IsSaved text t c → IsSaved text u d
        → (t ≡ u) × (c ≡ d) }
{}
