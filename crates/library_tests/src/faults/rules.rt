//! The rules of the verifier, each explained as where a compiled program broke it.

use compiler::CompileFault;
use diagnostics::program_fault_explained;
use sc_graph::Place;
use std::alloc::{AllocError, Global};
use std::test::Fail;
use verifier::{Broken, Refusal, Rule};

// A text that has a graph: node 0 forks, 1 joins, and 2 ends; 3 and 4 are of the first branch, 5 to 7 of the second.
const TEXT: &str =
    "scl P {\n  output int x; output int y;\n  fork { x = 1; } par { x = 2; y = x; } join;\n}\n";

// What is said where the image of this text breaks a rule at a place.
fn explanation(alloc: Global, rule: Rule, place: Place) -> Result<String, AllocError> {
    let refusal = Refusal::Broken(Broken { rule, place });
    program_fault_explained(alloc, "p.scl", TEXT, &CompileFault::Rule(refusal))
}

// Whether it is this. Where memory was refused it is not.
fn is_said(said: Result<String, AllocError>, wanted: &str) -> bool {
    match said {
        Ok(text) => text.as_str() == wanted,
        Err(_) => false,
    }
}

#[test]
fn each_rule(rt: HostRuntime) -> Result<(), Fail> {
    for (rule, place, wanted) in [
        (
            Rule::Size,
            Place::Image,
            "p.scl: E31 image: a count passes its limit, or a tick may take more than 16,777,216 steps\n",
        ),
        (
            Rule::Size,
            Place::Variable(1),
            "p.scl: E31 variable 1: a count passes its limit, or a tick may take more than 16,777,216 steps\nvariable `y`\n",
        ),
        (
            Rule::Structure,
            Place::Node(1),
            "p.scl:3:41: E32 1: a step names what another thread owns, or a fork, a join or a pause stands alone\nnode 1 at 3:41 joins\n3 |   fork { x = 1; } par { x = 2; y = x; } join;\n  |                                         ^\n",
        ),
        (
            Rule::Code,
            Place::Node(6),
            "p.scl:3:32: E33 6: an expression is not well formed\nnode 6 at 3:32 sets `y`\n3 |   fork { x = 1; } par { x = 2; y = x; } join;\n  |                                ^\n",
        ),
        (
            Rule::Assignment,
            Place::Node(3),
            "p.scl:3:10: E34 3: what is written does not fit the variable\nnode 3 at 3:10 sets `x`\n3 |   fork { x = 1; } par { x = 2; y = x; } join;\n  |          ^\n",
        ),
        (
            Rule::EndBit,
            Place::Node(7),
            "p.scl:3:19: E35 7: a step from which its thread may end in this tick is not marked so\nnode 7 at 3:19 ends\n3 |   fork { x = 1; } par { x = 2; y = x; } join;\n  |                   ^\n",
        ),
        (
            Rule::NoConflict,
            Place::Pair(3, 5),
            "p.scl:3:10: E36 3 5: two threads side by side write one variable, and nothing orders them\nnode 3 at 3:10 sets `x`\n3 |   fork { x = 1; } par { x = 2; y = x; } join;\n  |          ^\nnode 5 at 3:25 sets `x`\n3 |   fork { x = 1; } par { x = 2; y = x; } join;\n  |                         ^\n",
        ),
        (
            Rule::Flow,
            Place::Pair(0, 3),
            "p.scl:3:3: E37 0 3: a step has a lower priority than one to which it leads within a tick\nnode 0 at 3:3 forks\n3 |   fork { x = 1; } par { x = 2; y = x; } joi...\n  |   ^\n  = before node 3: a thread begins there in the same tick\nnode 3 at 3:10 sets `x`\n3 |   fork { x = 1; } par { x = 2; y = x; } join;\n  |          ^\n",
        ),
        (
            Rule::Protocol,
            Place::Pair(3, 6),
            "p.scl:3:10: E38 3 6: a step that has to come before another one has no higher priority than that\nnode 3 at 3:10 sets `x`\n3 |   fork { x = 1; } par { x = 2; y = x; } join;\n  |          ^\n  = before node 6: `x` is initialized here and read there\nnode 6 at 3:32 sets `y`\n3 |   fork { x = 1; } par { x = 2; y = x; } join;\n  |                                ^\n",
        ),
        (
            Rule::Weight,
            Place::Node(0),
            "p.scl:3:3: E39 0: a step is not charged with all steps that may follow it in the tick\nnode 0 at 3:3 forks\n3 |   fork { x = 1; } par { x = 2; y = x; } joi...\n  |   ^\n",
        ),
        (
            Rule::Bound,
            Place::Thread(2),
            "p.scl:3:25: E40 thread 2: a thread is not charged with all steps that it may take in a tick\nnode 5 at 3:25 sets `x`\n3 |   fork { x = 1; } par { x = 2; y = x; } join;\n  |                         ^\n",
        ),
    ] {
        assert!(rt;
            is_said(explanation(rt.alloc(), rule, place), wanted),
            "{wanted}"
        );
    }
    Ok(())
}

#[test]
fn refused_memory(rt: HostRuntime) -> Result<(), Fail> {
    let said = program_fault_explained(
        rt.alloc(),
        "p.scl",
        TEXT,
        &CompileFault::Rule(Refusal::Memory),
    );
    assert!(rt; is_said(said, "p.scl: E52: memory was refused\n"));
    Ok(())
}
