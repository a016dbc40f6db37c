//! The graph of an SCL program keeps its runs: the laws, over the definitions alone.
#![tactic(auto)]

ghost use Rattle.scl_graph_laws.specs.Laws.{AnsweredGraphs, GraphsKeepRuns, ProgramsKeepRuns, ProgramsAreFormed};
ghost use Rattle.scl_graph_laws.specs.Laws.{ProgramsKeepStepRules};

/// A program of nodes that mirrors a text keeps its runs, before the first tick and over every list of
/// input ticks, if each place of the text leads to a statement: configurations of the two correspond,
/// and from two that do a list of threads is an admissible run of the one exactly where it is one of
/// the other. This function does nothing; its contract is the law.
pub fn graphs_keep_runs()
    ensures { GraphsKeepRuns }
{}

/// The program of an SCL program mirrors it, and keeps its runs if no labels and gotos alone lead back
/// to themselves. This function does nothing; its contract is the law.
pub fn programs_keep_runs()
    ensures { ProgramsKeepRuns }
{}

/// The program of an SCL program is formed, if no labels and gotos alone lead back to themselves and it
/// has no more nodes and threads than an image may. This function does nothing; its contract is the law.
pub fn programs_are_formed()
    ensures { ProgramsAreFormed }
{}

/// The program of an SCL program keeps the rules about the codes and the assignments of its steps, if no
/// labels and gotos alone lead back to themselves and it has no more nodes and threads than an image may.
/// This function does nothing; its contract is the law.
pub fn programs_keep_step_rules()
    ensures { ProgramsKeepStepRules }
{}

/// What is answered as the graph of an SCL program keeps its runs, is formed, and keeps the rules about
/// the codes and the assignments of its steps. This function does nothing; its contract is the law.
pub fn answered_graphs()
    ensures { AnsweredGraphs }
{}
