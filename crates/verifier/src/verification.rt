//! All rules in order, and the lowest that an image breaks.

ghost use Rattle.std.specs.Prelude.{◌≡◌, ◌≢◌, Err, IfErr, IfOk, MatchOption, None, Some};
ghost use Rattle.sc_graph.specs.Links.{Tells};
ghost use Rattle.sc_graph.specs.Valid.{IsValid};
ghost use Rattle.verifier.specs.Verdict.{IsLowestBroken, KeepsBelow, KeptAt, fault_number};
ghost use Rattle.verifier.specs.Inside.Faults.{IsFault};
ghost use Rattle.verifier.specs.Inside.Known.{KnownOf};
ghost use Rattle.verifier.specs.declared.rule.Broken.{Broken};
ghost use Rattle.verifier.specs.declared.rule.Refusal.{Refusal};
ghost use Rattle.verifier.specs.declared.rule.Refusal.TheVariants as refusal;
ghost use Rattle.verifier.specs.declared.rule.Rule.TheVariants as named;

use crate::assignments::assignment_fault;
use crate::bounds::bound_fault;
use crate::codes::code_fault;
use crate::conflicts::no_conflict_fault;
use crate::end_bits::end_bit_fault;
use crate::flow::flow_fault;
use crate::known::Known;
use crate::protocol::protocol_fault;
use crate::rule::{Broken, Refusal, Rule};
use crate::size::size_fault;
use crate::verified::Verified;
use crate::weights::weight_fault;
use bytecode::Image;
use sc_graph::{Links, Place, Program, Tables};
use std::alloc::{AllocError, Global};

/// Verifies an image, and gives it where it is valid. `Broken`: the lowest rule that it breaks, and
/// a place where it does. `Memory`: memory was refused; then the image keeps the first two rules,
/// and of the others nothing is said.
pub fn verify(alloc: Global, image: Image) -> Result<Verified, Refusal>
    ensures verified { IfOk result (λ v. v ≡ image) }
    ensures valid { IfOk result (λ v. IsValid v.program v.tables) }
    ensures broken { (broken : Broken) → result ≡ Err (refusal.Broken broken)
        → IsLowestBroken image.program image.tables broken }
    // The first two rules are decided without memory.
    ensures memory { result ≡ Err refusal.Memory → KeepsBelow image.program image.tables (fault_number named.Code) }
    ensures accepted { IsValid image.program image.tables → (broken : Broken) → result ≢ Err (refusal.Broken broken) }
{
    match Known::of(alloc, image.program(), image.tables()) {
        Ok(known) => verify_by(alloc, image, known),
        Err(_refused) => {
            let refusal = refusal_without_memory(image.program(), image.tables());
            drop(image);
            Err(refusal)
        }
    }
}

// By what is known of its program.
fn verify_by(alloc: Global, image: Image, known: Known) -> Result<Verified, Refusal>
    requires { KnownOf image.program image.tables known }
    ensures verified { IfOk result (λ v. v ≡ image) }
    ensures valid { IfOk result (λ v. IsValid v.program v.tables) }
    ensures broken { (broken : Broken) → result ≡ Err (refusal.Broken broken)
        → IsLowestBroken image.program image.tables broken }
    ensures memory { result ≡ Err refusal.Memory → KeepsBelow image.program image.tables (fault_number named.Code) }
    ensures accepted { IsValid image.program image.tables → (broken : Broken) → result ≢ Err (refusal.Broken broken) }
{
    let refusal = refusal_by(alloc, image.program(), image.tables(), &known);
    verified_unless(refusal, image, known.into_links())
}

// Why a program with its tables is refused, by what is known of it. None: it is valid.
fn refusal_by(alloc: Global, program: &Program, tables: &Tables, known: &Known) -> Option<Refusal>
    requires { KnownOf program.now tables.now known.now }
    ensures valid { result ≡ None → IsValid program.now tables.now }
    ensures broken { (broken : Broken) → result ≡ Some (refusal.Broken broken)
        → IsLowestBroken program.now tables.now broken }
    ensures memory { result ≡ Some refusal.Memory → KeepsBelow program.now tables.now (fault_number named.Code) }
    ensures accepted { IsValid program.now tables.now → (broken : Broken) → result ≢ Some (refusal.Broken broken) }
{
    match lowest_broken(alloc, program, tables, known) {
        Ok(None) => None,
        Ok(Some(broken)) => Some(Refusal::Broken(broken)),
        Err(_refused) => Some(Refusal::Memory),
    }
}

// The image with the links of its program, unless it is refused.
fn verified_unless(
    refusal: Option<Refusal>,
    image: Image,
    links: Links,
) -> Result<Verified, Refusal>
    requires valid { refusal ≡ None → IsValid image.program image.tables }
    requires links { Tells image.program links }
    ensures verified { IfOk result (λ v. v ≡ image) }
    ensures valid { IfOk result (λ _. refusal ≡ None) }
    ensures refused { (r : Refusal) → result ≡ Err r → refusal ≡ Some r }
{
    match refusal {
        None => Ok(Verified::known(image, links)),
        Some(refusal) => {
            drop(image);
            drop(links);
            Err(refusal)
        }
    }
}

// What is said where memory was refused: whether one of the first two rules is broken is told
// without it.
fn refusal_without_memory(program: &Program, tables: &Tables) -> Refusal
    ensures broken { (broken : Broken) → result ≡ refusal.Broken broken → IsLowestBroken program.now tables.now broken }
    ensures memory { result ≡ refusal.Memory → KeepsBelow program.now tables.now (fault_number named.Code) }
{
    if let Some(place) = size_fault(program, tables) {
        return Refusal::Broken(Broken {
            rule: Rule::Size,
            place,
        });
    }
    match program.structure_fault() {
        Some(place) => Refusal::Broken(Broken {
            rule: Rule::Structure,
            place,
        }),
        None => Refusal::Memory,
    }
}

// The lowest rule that is broken, and a place where it is. Err: memory was refused; the first two rules are kept.
fn lowest_broken(
    alloc: Global,
    program: &Program,
    tables: &Tables,
    known: &Known,
) -> Result<Option<Broken>, AllocError>
    requires { KnownOf program.now tables.now known.now }
    ensures found { IfOk result (λ found. MatchOption found (IsValid program.now tables.now)
        (IsLowestBroken program.now tables.now)) }
    ensures refused { IfErr result (λ _. KeepsBelow program.now tables.now (fault_number named.Code)) }
{
    for rule in RULES {
        match broken_place(alloc, rule, program, tables, known)? {
            Some(place) => return Ok(Some(Broken { rule, place })),
            None => {}
        }
    }
    Ok(None)
}

const RULES: [Rule; 10] = [
    Rule::Size,
    Rule::Structure,
    Rule::Code,
    Rule::Assignment,
    Rule::EndBit,
    Rule::NoConflict,
    Rule::Flow,
    Rule::Protocol,
    Rule::Weight,
    Rule::Bound,
];

// A place where a rule is broken, where it is. The lower rules are kept. Err: memory was refused; the rule is not one
// of the first two, which are decided without it.
fn broken_place(
    alloc: Global,
    rule: Rule,
    program: &Program,
    tables: &Tables,
    known: &Known,
) -> Result<Option<Place>, AllocError>
    requires lower { KeepsBelow program.now tables.now (fault_number rule) }
    requires known { KnownOf program.now tables.now known.now }
    ensures found { IfOk result (IsFault (KeptAt rule program.now tables.now)) }
    ensures refused { IfErr result (λ _. KeepsBelow program.now tables.now (fault_number named.Code)) }
{
    match rule {
        Rule::Size => Ok(size_fault(program, tables)),
        Rule::Structure => Ok(program.structure_fault_with(&known.links)),
        Rule::Code => Ok(code_fault(program, known.kinds.as_slice())),
        Rule::Assignment => Ok(assignment_fault(program, known.kinds.as_slice())),
        Rule::EndBit => Ok(end_bit_fault(program, tables)),
        Rule::NoConflict => no_conflict_fault(alloc, program, &known.links, &known.users),
        Rule::Flow => Ok(flow_fault(program, tables, &known.links)),
        Rule::Protocol => Ok(protocol_fault(program, tables, known)),
        Rule::Weight => Ok(weight_fault(program, tables)),
        Rule::Bound => Ok(bound_fault(program, tables)),
    }
}
