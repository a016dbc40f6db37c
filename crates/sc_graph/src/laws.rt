//! The laws of concurrency and of tables.

ghost use Rattle.std.specs.Prelude.{◌≡◌, ℕ, List, Some};
ghost use Rattle.sc_values.specs.Runs.{replay};
ghost use Rattle.sc_graph.specs.declared.control.Control.{Control};
ghost use Rattle.sc_graph.specs.declared.tables.Tables.{Tables};
ghost use Rattle.sc_graph.specs.Program.{Program};
ghost use Rattle.sc_graph.specs.Threads.{Below, ForkedApart, AreConcurrent};
ghost use Rattle.sc_graph.specs.Control.{IsEnabled};
ghost use Rattle.sc_graph.specs.Steps.{step};
ghost use Rattle.sc_graph.specs.Machine.{machine};
ghost use Rattle.sc_graph.specs.Priority.{HaveOnePriority, PriorityRun};
ghost use Rattle.sc_graph.specs.Valid.{IsFormed};

/// What holds of concurrency: it is symmetric; in each formed program no thread is concurrent with
/// itself or with one above it, and two threads have one common forking thread or none. The
/// function does nothing: its contract is the law.
pub fn laws_of_concurrency()
    ensures symmetric { (p : Program) (t u : ℕ) → AreConcurrent p t u → AreConcurrent p u t }
    ensures irreflexive { (p : Program) → IsFormed p → (t : ℕ) → ¬ AreConcurrent p t t }
    ensures not_above { (p : Program) → IsFormed p → (t u : ℕ) → Below p t u → ¬ AreConcurrent p t u }
    ensures one_forking_thread { (p : Program) → IsFormed p → (t u a b : ℕ) → ForkedApart p t u a
        → ForkedApart p t u b → a ≡ b }
{}

/// What tables are to a program: they choose among its runs, of which no word speaks of tables. A
/// priority run, by whatever tables, is a run of the program, each step by an enabled thread; where
/// all nodes have one priority, each run is a priority run. The function does nothing: its contract
/// is the law.
pub fn laws_of_tables()
    ensures enabled { (p : Program) (t : ℕ) (c d : Control) → step p t c ≡ Some d → IsEnabled p c t }
    ensures chosen { (p : Program) (q : Tables) (run : List ℕ) (c d : Control) → PriorityRun p q run c d
        → replay (machine p) run c ≡ Some d }
    ensures all_chosen { (p : Program) (q : Tables) → HaveOnePriority p q → (run : List ℕ) (c d : Control)
        → replay (machine p) run c ≡ Some d → PriorityRun p q run c d }
{}
