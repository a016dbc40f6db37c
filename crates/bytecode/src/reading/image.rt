//! Whole images from bytes.

ghost use Rattle.std.specs.Prelude.{◌≡◌, ◌<◌, ℕ, [], length, IfOk, OnOk, Ok, Err};
ghost use Rattle.std.specs.Result.{IsErrOf};
ghost use Rattle.sc_graph.specs.Layout.{FitsLayout};
ghost use Rattle.bytecode.specs.Layout.{thread_rows, node_rows, HasHeader};
ghost use Rattle.bytecode.specs.Inside.Columns.{AreThreads, AreNodes};
ghost use Rattle.bytecode.specs.declared.fault.DecodeFault.TheVariants.{Field, Memory};
ghost use Rattle.bytecode.specs.Image.{Image};
ghost use Rattle.bytecode.specs.Spells.{Spells};
ghost use Rattle.bytecode.specs.Reading.{each_at};
ghost use Rattle.bytecode.specs.Inside.Readers.{Gives, GivesExactly};
ghost use Rattle.bytecode.specs.Reading.Fields.{variable_at};
ghost use Rattle.bytecode.specs.Reading.Nodes.{thread_at, node_at};
ghost use Rattle.bytecode.specs.Reading.Image.{header_at, body_at, image_at, image_of, reading, version_of, Answers};

use crate::fault::DecodeFault;
use crate::image::Image;
use crate::layout::MAGIC;
use crate::reading::fields::{byte, front, number16, number32, variable};
use crate::reading::nodes::{node, thread};
use sc_graph::{Node, Program, Tables, Thread, Variable};
use sqlite_items::Items;
use std::alloc::Global;

// Threads, and a bound for each.
#[derive(Drop)]
struct Threads {
    threads: Items<Thread>,
    bounds: Items<u32>,
}

// Nodes, and a priority, a weight and an end bit for each.
#[derive(Drop)]
struct Nodes {
    nodes: Items<Node>,
    priorities: Items<u16>,
    weights: Items<u16>,
    end_bits: Items<bool>,
}

impl Threads {
    // No threads.
    fn bare(alloc: Global) -> Threads
        ensures { (result.threads ≡ []) × (result.bounds ≡ []) }
    {
        Threads {
            threads: Items::new(alloc),
            bounds: Items::new(alloc),
        }
    }
}

impl Nodes {
    // No nodes.
    fn bare(alloc: Global) -> Nodes
        ensures none { (result.nodes ≡ []) × (result.priorities ≡ []) }
        ensures tables { (result.weights ≡ []) × (result.end_bits ≡ []) }
    {
        Nodes {
            nodes: Items::new(alloc),
            priorities: Items::new(alloc),
            weights: Items::new(alloc),
            end_bits: Items::new(alloc),
        }
    }
}

#[tactic(auto, unfolding(crate::specs::Reading::Image::header_at))]
fn header(version: u8, bytes: &[u8]) -> Result<&[u8], DecodeFault>
    ensures { GivesExactly (λ x. x.now) result (header_at version bytes.now) }
{
    let (start, rest) = front(bytes, 4)?;
    if start != MAGIC.as_slice() {
        return Err(DecodeFault::Magic);
    }
    let (number, rest) = byte(rest)?;
    if number != version {
        return Err(DecodeFault::Version);
    }
    Ok(rest)
}

fn variable_list(
    alloc: Global,
    count: u16,
    bytes: &[u8],
) -> Result<(Items<Variable>, &[u8]), DecodeFault>
    ensures { Gives (λ x. (x.0, x.1.now)) result (each_at variable_at count bytes.now) }
{
    let mut variables = Items::new(alloc);
    let mut rest = bytes;
    for _ in 0..count {
        match variable(rest) {
            Ok((read, after)) => {
                variables.push(read)?;
                rest = after;
            }
            Err(fault) => return Err(fault),
        }
    }
    Ok((variables, rest))
}

// Threads and their bounds, in place of those that were there.
fn thread_columns<'b>(
    alloc: Global,
    count: u16,
    bytes: &'b [u8],
    columns: &mut Threads,
) -> Result<&'b [u8], DecodeFault>
    ensures gives { Gives (λ x. (thread_rows columns.new.threads columns.new.bounds, x.now)) result
        (each_at thread_at count bytes.now) }
    ensures lengths { OnOk result (AreThreads columns.new.threads columns.new.bounds count) }
{
    *columns = Threads::bare(alloc);
    let mut rest = bytes;
    for _ in 0..count {
        let (row, after) = thread(rest)?;
        columns.threads.push(row.thread)?;
        columns.bounds.push(row.bound)?;
        rest = after;
    }
    Ok(rest)
}

// Nodes and their entries in the tables, in place of those that were there.
fn node_columns<'b>(
    alloc: Global,
    version: u8,
    count: u16,
    bytes: &'b [u8],
    columns: &mut Nodes,
) -> Result<&'b [u8], DecodeFault>
    ensures gives { Gives (λ x. (
      node_rows columns.new.nodes columns.new.priorities columns.new.weights
          columns.new.end_bits,
      x.now,
    )) result (each_at (node_at version) count bytes.now) }
    ensures lengths { OnOk result (AreNodes columns.new.nodes columns.new.priorities columns.new.weights
        columns.new.end_bits count) }
{
    *columns = Nodes::bare(alloc);
    let mut rest = bytes;
    for _ in 0..count {
        let (row, after) = node(alloc, version, rest)?;
        columns.nodes.push(row.node)?;
        columns.priorities.push(row.priority)?;
        columns.weights.push(row.weight)?;
        columns.end_bits.push(row.end_bit)?;
        rest = after;
    }
    Ok(rest)
}

// What stands behind the header.
#[derive(Drop)]
struct Parts {
    variables: Items<Variable>,
    threads: Threads,
    nodes: Nodes,
    budget: u32,
}

#[tactic(auto, unfolding(crate::specs::Reading::Image::body_at, crate::specs::Reading::Image::counted_at))]
fn all_parts(alloc: Global, version: u8, bytes: &[u8], parts: &mut Parts) -> Result<(), DecodeFault>
    ensures gives { Gives (λ _. image_of parts.new.variables
        (thread_rows parts.new.threads.threads parts.new.threads.bounds)
        (node_rows parts.new.nodes.nodes parts.new.nodes.priorities parts.new.nodes.weights parts.new.nodes.end_bits)
        parts.new.budget) result (body_at version bytes.now) }
    ensures threads { OnOk result (AreThreads parts.new.threads.threads parts.new.threads.bounds
        (length parts.new.threads.threads)) }
    ensures nodes { OnOk result (AreNodes parts.new.nodes.nodes parts.new.nodes.priorities parts.new.nodes.weights
        parts.new.nodes.end_bits (length parts.new.nodes.nodes)) }
{
    let (count, rest) = number16(bytes)?;
    let (variables, rest) = variable_list(alloc, count, rest)?;
    parts.variables = variables;
    let (count, rest) = number16(rest)?;
    let rest = thread_columns(alloc, count, rest, &mut parts.threads)?;
    let (count, rest) = number16(rest)?;
    let rest = node_columns(alloc, version, count, rest, &mut parts.nodes)?;
    let (budget, rest) = number32(rest)?;
    if !rest.is_empty() {
        return Err(DecodeFault::Trailing);
    }
    parts.budget = budget;
    Ok(())
}

// The image of these parts.
fn image_from(parts: Parts) -> Image
    requires threads { AreThreads parts.threads.threads parts.threads.bounds (length parts.threads.threads) }
    requires nodes { AreNodes parts.nodes.nodes parts.nodes.priorities parts.nodes.weights parts.nodes.end_bits
        (length parts.nodes.nodes) }
    requires fits { FitsLayout parts.variables parts.threads.threads parts.nodes.nodes }
    ensures { result ≡ record {
      program = record {
        variables = parts.variables;
        threads = parts.threads.threads;
        nodes = parts.nodes.nodes;
      };
      tables = record {
        priorities = parts.nodes.priorities;
        weights = parts.nodes.weights;
        end_bits = parts.nodes.end_bits;
        bounds = parts.threads.bounds;
        budget = parts.budget;
      };
    } }
{
    let Parts {
        variables,
        threads: Threads { threads, bounds },
        nodes: Nodes {
            nodes,
            priorities,
            weights,
            end_bits,
        },
        budget,
    } = parts;
    let tables = Tables {
        priorities,
        weights,
        end_bits,
        bounds,
        budget,
    };
    match Program::of(variables, threads, nodes) {
        Ok(program) => match Image::of(program, tables) {
            Some(image) => image,
            None => unreachable!(),
        },
        Err(_) => unreachable!(),
    }
}

fn body(alloc: Global, version: u8, bytes: &[u8]) -> Result<Image, DecodeFault>
    ensures { Gives (λ i. i) result (body_at version bytes.now) }
{
    let mut parts = Parts {
        variables: Items::new(alloc),
        threads: Threads::bare(alloc),
        nodes: Nodes::bare(alloc),
        budget: 0,
    };
    match all_parts(alloc, version, bytes, &mut parts) {
        Ok(()) => Ok(image_from(parts)),
        Err(fault) => {
            drop(parts);
            Err(fault)
        }
    }
}

#[tactic(auto, unfolding(crate::specs::Reading::Image::image_at))]
fn image(alloc: Global, version: u8, bytes: &[u8]) -> Result<Image, DecodeFault>
    ensures gives { Gives (λ i. i) result (image_at version bytes.now) }
    ensures memory { result ≡ Err Memory → HasHeader version bytes.now }
{
    let rest = header(version, bytes)?;
    body(alloc, version, rest)
}

fn read(alloc: Global, version: u8, bytes: &[u8]) -> Result<Image, DecodeFault>
    ensures answers { Answers result (reading version bytes.now) }
    ensures memory { result ≡ Err Memory → HasHeader version bytes.now }
{
    match image(alloc, version, bytes) {
        Ok(image) => Ok(image),
        Err(fault) => Err(fault.in_bytes(bytes)),
    }
}

/// The image that all of the bytes are, in version 2 of the layout; else the first fault from the
/// left: `Short` for a field with too few bytes left, `Magic`, `Version` or `Field` for a bad one,
/// and `Trailing` for bytes behind the last. `Memory` claims nothing of the bytes but that they begin
/// with `SCCB` and the version. What these faults say of spellings is stated by the laws
/// `cut_spelling_is_short`, `spelling_and_more_has_a_tail` and `told_field_is_bad`.
pub fn decode(alloc: Global, bytes: &[u8]) -> Result<Image, DecodeFault>
    // What is read is spelled so.
    ensures found { IfOk result (λ i. Spells 2 bytes.now i) }
    // What spells an image is read as that image, unless memory was refused.
    ensures only { (i : Image) → Spells 2 bytes.now i → Answers result (Ok i) }
    // Which fault it is.
    ensures exact { Answers result (reading 2 bytes.now) }
    // Memory is taken for what stands behind a good header alone.
    ensures memory { result ≡ Err Memory → HasHeader 2 bytes.now }
    // A bad field begins at one of the bytes.
    ensures within { (offset : ℕ) → IsErrOf result (Field offset) → offset < length bytes.now }
{
    read(alloc, 2, bytes)
}

/// The image that all of the bytes are, in version 1 of the layout, which has no divisions. It
/// answers as `decode` does.
pub fn decode_v1(alloc: Global, bytes: &[u8]) -> Result<Image, DecodeFault>
    // What is read is spelled so.
    ensures found { IfOk result (λ i. Spells 1 bytes.now i) }
    // What spells an image is read as that image, unless memory was refused.
    ensures only { (i : Image) → Spells 1 bytes.now i → Answers result (Ok i) }
    // Which fault it is.
    ensures exact { Answers result (reading 1 bytes.now) }
    // Memory is taken for what stands behind a good header alone.
    ensures memory { result ≡ Err Memory → HasHeader 1 bytes.now }
    // A bad field begins at one of the bytes.
    ensures within { (offset : ℕ) → IsErrOf result (Field offset) → offset < length bytes.now }
{
    read(alloc, 1, bytes)
}

// The version in which bytes are read.
fn version_said(bytes: &[u8]) -> u8
    ensures { result ≡ version_of bytes.now }
{
    match bytes.get(4) {
        Some(1) => 1,
        _ => 2,
    }
}

/// The image that all of the bytes are, in either version of the layout: in version 1 where the fifth
/// byte is 1, else in version 2. It answers as `decode_v1` or `decode` does.
pub fn decode_either(alloc: Global, bytes: &[u8]) -> Result<Image, DecodeFault>
    ensures found { IfOk result (λ i. Spells (version_of bytes.now) bytes.now i) }
    ensures only { (i : Image) → Spells (version_of bytes.now) bytes.now i → Answers result (Ok i) }
    ensures exact { Answers result (reading (version_of bytes.now) bytes.now) }
    ensures memory { result ≡ Err Memory → HasHeader (version_of bytes.now) bytes.now }
    ensures within { (offset : ℕ) → IsErrOf result (Field offset) → offset < length bytes.now }
{
    read(alloc, version_said(bytes), bytes)
}
