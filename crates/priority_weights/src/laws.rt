//! The law of least tables.

ghost use Rattle.std.specs.Prelude.{◌≤◌};
ghost use Rattle.program_edges.specs.Conflicts.{HasNoConflict};
ghost use Rattle.sc_graph.specs.Codes.{AssignmentAt, CodeAt};
ghost use Rattle.sc_graph.specs.Limits.{budget_limit};
ghost use Rattle.sc_graph.specs.Program.{Program};
ghost use Rattle.sc_graph.specs.Valid.{IsFormed, IsValid};
ghost use Rattle.sc_graph.specs.declared.place.Place.{Place};
ghost use Rattle.sc_graph.specs.declared.tables.Tables.{Tables};
ghost use Rattle.priority_weights.specs.LeastTables.{AreLeast};

/// What least tables are for: a formed program without write conflicts, whose codes and assignments keep their
/// rules, is valid with its least tables, but for the limit of the budget. The function does nothing: its contract
/// is the law.
pub fn law_of_least_tables()
    ensures { (p : Program) (q : Tables) → IsFormed p → ((at : Place) → CodeAt p at)
        → ((at : Place) → AssignmentAt p at) → HasNoConflict p → AreLeast p q → q.budget ≤ budget_limit
        → IsValid p q }
{}
