//! The faults of programs in words.

use crate::told::Told;
use abort_expansion::ExpandFault;
use compiler::CompileFault;
use conflict_edges::ConflictFault;
use priority_weights::TablesFault;
use scl_graph::GraphFault;
use verifier::{Refusal, Rule};

const MEMORY: Told = Told {
    cause: "memory was refused",
    cure: "",
};

/// Why a program has no image, in words.
pub(crate) fn in_words(fault: &CompileFault) -> Told {
    match fault {
        CompileFault::Expansion(fault) => expansion_told(*fault),
        CompileFault::Graph(fault) => graph_told(*fault),
        CompileFault::Conflict(fault) => conflict_told(*fault),
        CompileFault::Tables(fault) => tables_told(fault),
        CompileFault::Rule(refusal) => refusal_told(*refusal),
    }
}

fn expansion_told(fault: ExpandFault) -> Told {
    match fault {
        ExpandFault::Limit => Told {
            cause: "the chart has more than 256 variables together with those that its aborts need: one for the strong aborts of a superstate, one for its weak ones, and a counter for its `join` where it has aborts or lies inside weak ones; or the chart that `sct core` or `sct reduce` would print passes a limit of chart text",
            cure: "put one abort around several superstates, or take states for variables",
        },
        ExpandFault::Memory => MEMORY,
    }
}

fn graph_told(fault: GraphFault) -> Told {
    match fault {
        GraphFault::EmptyLoop(_) => Told {
            cause: "a goto leads through labels and gotos alone back to itself",
            cure: "put a step or a `pause;` behind the label; in a chart, immediate transitions without triggers and effects lead round: take `immediate` from one",
        },
        GraphFault::Limit => Told {
            cause: "the program has more than 16,384 nodes or 1,024 threads",
            cure: "it is too large for an image: split it",
        },
        GraphFault::Memory => MEMORY,
    }
}

fn conflict_told(fault: ConflictFault) -> Told {
    match fault {
        ConflictFault::WriteWrite(_, _) => Told {
            cause: "two threads or regions side by side write one variable, and nothing orders them",
            cure: "let one of them write it; give both updates one operator; or let them run one after the other",
        },
        ConflictFault::Memory => MEMORY,
    }
}

fn tables_told(fault: &TablesFault) -> Told {
    match fault {
        TablesFault::InstantLoop(_) => Told {
            cause: "a loop comes back to its first step within one tick",
            cure: "put a `pause;` into the loop; in a chart, take `immediate` from one of the transitions, or put a delayed one into the superstate that ends at once",
        },
        TablesFault::Cyclic(_) => Told {
            cause: "each of these steps has to come before the next, and the last before the first",
            cure: "break the way with a `pause;`, in a chart with a state between, or read what the tick before left from another variable; make a strong abort that reads what its inside writes a weak one",
        },
        TablesFault::Memory => MEMORY,
    }
}

fn refusal_told(refusal: Refusal) -> Told {
    match refusal {
        Refusal::Broken(broken) => Told {
            cause: rule_told(broken.rule),
            cure: "",
        },
        Refusal::Memory => MEMORY,
    }
}

fn rule_told(rule: Rule) -> &'static str {
    match rule {
        Rule::Size => { "a count passes its limit, or a tick may take more than 16,777,216 steps" }
        Rule::Structure =>
            "a step names what another thread owns, or a fork, a join or a pause stands alone",
        Rule::Code => "an expression is not well formed",
        Rule::Assignment => "what is written does not fit the variable",
        Rule::EndBit => "a step from which its thread may end in this tick is not marked so",
        Rule::NoConflict => {
            "two threads side by side write one variable, and nothing orders them"
        }
        Rule::Flow => "a step has a lower priority than one to which it leads within a tick",
        Rule::Protocol => {
            "a step that has to come before another one has no higher priority than that"
        }
        Rule::Weight => "a step is not charged with all steps that may follow it in the tick",
        Rule::Bound => "a thread is not charged with all steps that it may take in a tick",
    }
}
