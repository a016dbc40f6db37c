//! The nodes of single statements.

ghost use Rattle.std.specs.Prelude.{◌≡◌, ◌+◌, ◌≤◌, [], ◌∷◌, ◌++◌, IfOk, suc};
ghost use Rattle.sc_graph.specs.Limits.{count_limit};
ghost use Rattle.sc_graph.specs.declared.program.Step.TheVariants as step;
ghost use Rattle.sc_values.specs.Assignment.{assignment_of};
ghost use Rattle.sc_values.specs.Expr.{postorder};
ghost use Rattle.scl_graph.specs.Graph.{assigns, node};
ghost use Rattle.scl_graph.specs.Inside.Laying.{step_coded};

use crate::fault::GraphFault;
use sc_graph::{Node, NodeId, Step, ThreadId, VariableId};
use sc_values::{Code, CodedAssignment, Expr};
use sqlite_items::Items;

/// Puts the node of an assignment behind the others.
pub(crate) fn lay_assignment(
    variable: VariableId,
    value: &Expr,
    owner: ThreadId,
    next: NodeId,
    nodes: &mut Items<Node>,
) -> Result<(), GraphFault>
    ensures { IfOk result (λ _. nodes.new ≡ nodes.old ++ node owner
        (assigns variable (assignment_of variable value.now) next) ∷ []) }
{
    let Some(assignment) = CodedAssignment::of(variable, value) else {
        return Err(GraphFault::Limit);
    };
    put(owner, step_of(variable, assignment, next), nodes)
}

// The step of an assignment.
fn step_of(variable: VariableId, assignment: CodedAssignment, next: NodeId) -> Step
    ensures { result ≡ step_coded variable assignment next }
{
    match assignment {
        CodedAssignment::Init(code) => Step::Assign {
            variable,
            code,
            next,
        },
        CodedAssignment::Update(combine, code) => Step::Update {
            variable,
            combine,
            code,
            next,
        },
    }
}

/// Puts the node of a test behind the others.
pub(crate) fn lay_test(
    test: &Expr,
    owner: ThreadId,
    then: NodeId,
    other: NodeId,
    nodes: &mut Items<Node>,
) -> Result<(), GraphFault>
    ensures { IfOk result (λ _. nodes.new ≡ nodes.old ++ node owner
        (step.Cond (postorder test.now) then other) ∷ []) }
{
    let Some(code) = Code::postorder(test) else {
        return Err(GraphFault::Limit);
    };
    put(owner, Step::Cond { code, then, other }, nodes)
}

/// Puts the surface and the depth of a pause behind the others; the surface has the number `at`.
pub(crate) fn lay_pause(
    at: NodeId,
    owner: ThreadId,
    next: NodeId,
    nodes: &mut Items<Node>,
) -> Result<(), GraphFault>
    requires { at + 1 ≤ count_limit }
    ensures { IfOk result (λ _. nodes.new ≡ nodes.old ++ node owner (step.Surf (suc at)) ∷ node owner
        (step.Depth next) ∷ []) }
{
    put(owner, Step::Surf { depth: at + 1 }, nodes)?;
    put(owner, Step::Depth { next }, nodes)
}

/// Puts a fork of these children and its join behind the others; the fork has the number `at`.
pub(crate) fn lay_fork(
    at: NodeId,
    owner: ThreadId,
    children: Items<ThreadId>,
    next: NodeId,
    nodes: &mut Items<Node>,
) -> Result<(), GraphFault>
    requires { at + 1 ≤ count_limit }
    ensures { IfOk result (λ _. nodes.new ≡ nodes.old ++ node owner
        (step.Fork children (suc at)) ∷ node owner (step.Join next) ∷ []) }
{
    let join = at + 1;
    put(owner, Step::Fork { children, join }, nodes)?;
    put(owner, Step::Join { next }, nodes)
}

/// Puts the end of a thread behind the others.
pub(crate) fn lay_end(owner: ThreadId, nodes: &mut Items<Node>) -> Result<(), GraphFault>
    ensures { IfOk result (λ _. nodes.new ≡ nodes.old ++ node owner step.Exit ∷ []) }
{
    put(owner, Step::Exit, nodes)
}

// Puts a node behind the others.
fn put(owner: ThreadId, step: Step, nodes: &mut Items<Node>) -> Result<(), GraphFault>
    ensures { IfOk result (λ _. nodes.new ≡ nodes.old ++ node owner step ∷ []) }
{
    nodes.push(Node { owner, step })?;
    Ok(())
}
