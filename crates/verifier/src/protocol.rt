//! The rule of priority along protocol edges: it falls from each init of a variable to each concurrent
//! update and read, and from each update to each concurrent read.

ghost use Rattle.std.specs.Prelude.{◌≡◌, ◌↔◌, IsTrue, MatchOption, ℕ, Contains};
ghost use Rattle.sc_graph.specs.Protocol.{ProtocolAt};
ghost use Rattle.sc_graph.specs.Valid.{IsFormed};
ghost use Rattle.sc_graph.specs.declared.place.Place.TheVariants as place;
ghost use Rattle.verifier.specs.Inside.Pairs.{NoFallBetween};
ghost use Rattle.program_edges.specs.Extremes.{StandFor};
ghost use Rattle.program_edges.specs.AlongVariables.{AllFall, FallsOn, FallsTo};
ghost use Rattle.program_edges.specs.declared.extremes.Extreme.TheVariants.{Greatest, Least};
ghost use Rattle.program_edges.specs.Users.{InitsAt, Lists, ReadsAt, UpdatesAt};
ghost use Rattle.verifier.specs.Inside.Faults.{IsFault};
ghost use Rattle.verifier.specs.Inside.Known.{KnownOf};
ghost use Rattle.verifier.specs.Inside.Linked.{IsLinked};
ghost use Rattle.verifier.specs.Inside.Chosen.{StandOver};

use crate::extremes::{Extremes, list_of};
use crate::known::Known;
use program_edges::{are_concurrent, has_company};
use sc_graph::{Links, NodeId, Place, Program, Tables, VariableId};

/// A place where the rule is broken, where it is.
pub(crate) fn protocol_fault(program: &Program, tables: &Tables, known: &Known) -> Option<Place>
    requires formed { IsFormed program.now }
    requires known { KnownOf program.now tables.now known.now }
    ensures { IsFault (ProtocolAt program.now tables.now) result }
{
    let users = &known.users;
    for x in 0..program.variable_count() {
        let inits = users.inits.of(x);
        let updates = users.updates.of(x);
        let reads = users.reads.of(x);
        if let Some(place) = no_fall_over(
            program,
            tables,
            &known.links,
            &known.extremes,
            x,
            inits,
            updates,
            reads,
        ) {
            return Some(place);
        }
    }
    None
}

// A protocol edge about a variable along which priority does not fall, over the lists of the
// variable's inits, updates and reads.
fn no_fall_over(
    program: &Program,
    tables: &Tables,
    links: &Links,
    extremes: &Extremes,
    x: VariableId,
    inits: &[NodeId],
    updates: &[NodeId],
    reads: &[NodeId],
) -> Option<Place>
    requires links { IsLinked program.now links.now }
    requires inits { Lists inits.now (InitsAt program.now x) }
    requires updates { Lists updates.now (UpdatesAt program.now x) }
    requires reads { Lists reads.now (ReadsAt program.now x) }
    requires extremes { StandOver program.now tables.now extremes.now x inits.now updates.now reads.now }
    ensures { MatchOption result (FallsOn program.now tables.now.priorities x)
        (λ at. ¬ ProtocolAt program.now tables.now at) }
{
    let least_inits = list_of(&extremes.least_inits, x);
    let greatest_updates = list_of(&extremes.greatest_updates, x);
    if let Some(place) = no_fall_by(
        program,
        tables,
        links,
        inits,
        least_inits,
        updates,
        greatest_updates,
    ) {
        return Some(place);
    }
    let greatest_reads = list_of(&extremes.greatest_reads, x);
    if let Some(place) = no_fall_by(
        program,
        tables,
        links,
        inits,
        least_inits,
        reads,
        greatest_reads,
    ) {
        return Some(place);
    }
    let least_updates = list_of(&extremes.least_updates, x);
    no_fall_by(
        program,
        tables,
        links,
        updates,
        least_updates,
        reads,
        greatest_reads,
    )
}

// A first and a concurrent second node between which priority does not fall. They are looked for
// only where it does not fall from the nodes that stand for the first ones, by least priority, to
// those that stand for the second ones, by greatest.
fn no_fall_by(
    program: &Program,
    tables: &Tables,
    links: &Links,
    firsts: &[NodeId],
    least: &[NodeId],
    seconds: &[NodeId],
    greatest: &[NodeId],
) -> Option<Place>
    requires links { IsLinked program.now links.now }
    requires least { StandFor program.now tables.now.priorities Least firsts.now least.now }
    requires greatest { StandFor program.now tables.now.priorities Greatest seconds.now greatest.now }
    ensures { MatchOption result (AllFall program.now tables.now.priorities firsts.now seconds.now)
        (NoFallBetween program.now tables.now firsts.now seconds.now) }
{
    match no_fall_between(program, tables, links, least, greatest) {
        Some(_place) => no_fall_between(program, tables, links, firsts, seconds),
        None => None,
    }
}

// A first and a concurrent second node between which priority does not fall.
fn no_fall_between(
    program: &Program,
    tables: &Tables,
    links: &Links,
    firsts: &[NodeId],
    seconds: &[NodeId],
) -> Option<Place>
    requires { IsLinked program.now links.now }
    ensures { MatchOption result (AllFall program.now tables.now.priorities firsts.now seconds.now)
        (NoFallBetween program.now tables.now firsts.now seconds.now) }
{
    for m in firsts {
        if let Some(n) = no_fall_after(program, tables, links, *m, seconds) {
            return Some(Place::Pair(*m, n));
        }
    }
    None
}

// One of these nodes to which priority does not fall from the first.
fn no_fall_after(
    program: &Program,
    tables: &Tables,
    links: &Links,
    m: NodeId,
    seconds: &[NodeId],
) -> Option<NodeId>
    requires { IsLinked program.now links.now }
    ensures { MatchOption result ((n : ℕ) → Contains seconds.now n → FallsTo program.now tables.now.priorities m n)
        (λ n. Contains seconds.now n × ¬ FallsTo program.now tables.now.priorities m n) }
{
    if !has_company(program, links, m) {
        return None;
    }
    for n in seconds {
        if !falls(program, tables, links, m, *n) {
            return Some(*n);
        }
    }
    None
}

// Whether priority falls from a node to another, if they are concurrent.
fn falls(program: &Program, tables: &Tables, links: &Links, m: NodeId, n: NodeId) -> bool
    requires { IsLinked program.now links.now }
    ensures { IsTrue result ↔ FallsTo program.now tables.now.priorities m n }
{
    tables.priority(n) < tables.priority(m) || !are_concurrent(program, links, m, n)
}
