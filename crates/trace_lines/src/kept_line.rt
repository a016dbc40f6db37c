//! Lines that were read, each kept with what it gives to the inputs.

ghost use Rattle.std.specs.Prelude.{◌≡◌, ◌≢◌, ◌↔◌, ◌+◌, ◌<◌, ◌≤◌, [], List, IfOk, IsTrue, length};
ghost use Rattle.sc_graph.specs.declared.program.Variable.{Variable};
ghost use Rattle.trace_lines.specs.Inside.Kept.{Says, IsKept, AreKept, IsKeptAt, inputs_at, slots};

use byteorder::{ByteOrder, LittleEndian};
use sc_values::{Name, Value};
use sqlite_items::Items;
use std::alloc::{AllocError, Global};

// So many lines are kept.
const SLOTS: usize = 256;

// A line of more bytes is not kept.
const LONGEST_KEPT: usize = 256;

// An odd number whose bits are in no order.
const MIXER: u64 = 0x9E37_79B9_7F4A_7C15;

/// A line with what it gives to the inputs. Where it has no bytes, nothing is kept.
#[derive(Drop)]
pub(crate) struct KeptLine {
    pub(crate) line: Vec<u8>,
    pub(crate) inputs: Items<(Name, Value)>,
}

impl KeptLine {
    fn none(alloc: Global) -> KeptLine
        ensures { result.line.items ≡ [] }
    {
        KeptLine {
            line: Vec::new(alloc),
            inputs: Items::new(alloc),
        }
    }

    // Takes what a line gives to the inputs, and keeps the line with it, where it is short.
    fn set(&mut self, line: &[u8], inputs: Items<(Name, Value)>) -> Result<(), AllocError>
        ensures inputs { self.new.inputs ≡ inputs }
        ensures kept { (variables : List Variable) → Says variables line.now inputs → IsKept variables self.new }
    {
        self.line.clear();
        self.inputs = inputs;
        if line.len() <= LONGEST_KEPT {
            self.line.extend_from_slice(line)?;
        }
        Ok(())
    }
}

/// Room for lines, of which none is kept yet.
pub(crate) fn no_lines(alloc: Global) -> Result<Vec<KeptLine>, AllocError>
    ensures { IfOk result (λ kept. (variables : List Variable) → AreKept variables kept.items) }
{
    let mut kept = Vec::with_capacity(alloc, SLOTS)?;
    for _slot in 0..SLOTS {
        kept.push(KeptLine::none(alloc))?;
    }
    Ok(kept)
}

// The eight bytes from this one on.
fn word_at(line: &[u8], at: usize) -> u64
    requires { at + 8 ≤ length line.now }
{
    LittleEndian::read_u64(&line[at..])
}

fn mixed_with(mixed: u64, word: u64) -> u64 {
    (mixed.rotate_left(43) ^ word).wrapping_mul(MIXER)
}

// The bytes of a line of fewer than eight.
fn short_word(line: &[u8]) -> u64 {
    let mut word = 0;
    for byte in line {
        word = word << 8 | *byte as u64;
    }
    word
}

// The last eight bytes of a line, or all where it has fewer.
fn last_word(line: &[u8]) -> u64 {
    if line.len() < 8 {
        short_word(line)
    } else {
        word_at(line, line.len() - 8)
    }
}

// A number whose highest bits tell lines apart: each byte has a bearing on them.
fn mixed(line: &[u8]) -> u64 {
    let mut mixed = line.len() as u64;
    for word in 0..line.len() / 8 {
        mixed = mixed_with(mixed, word_at(line, word * 8));
    }
    mixed_with(mixed, last_word(line))
}

/// Where a line is kept, if it is.
pub(crate) fn slot_of(line: &[u8]) -> usize
    ensures { result < slots }
{
    if line.len() > LONGEST_KEPT {
        return 0;
    }
    (mixed(line) >> 56) as usize % SLOTS
}

fn is_same(bytes: &[u8], line: &[u8]) -> bool
    ensures { IsTrue result ↔ (bytes.now ≡ line.now) }
{
    bytes == line
}

// Whether this line is kept here.
fn is_kept_in(kept: &KeptLine, line: &[u8]) -> bool
    ensures { IsTrue result → (kept.now.line.items ≢ []) × (kept.now.line.items ≡ line.now) }
{
    !kept.line.is_empty() && is_same(&kept.line, line)
}

/// Whether this line is kept in a slot.
pub(crate) fn is_kept_at(kept: &[KeptLine], slot: usize, line: &[u8]) -> bool
    ensures { IsTrue result → IsKeptAt kept.now slot line.now }
{
    match sqlite_items::at(kept, slot) {
        Some(one) => is_kept_in(one, line),
        None => false,
    }
}

/// Keeps a line in a slot, with what it gives to the inputs.
pub(crate) fn keep(
    kept: &mut Vec<KeptLine>,
    slot: usize,
    line: &[u8],
    inputs: Items<(Name, Value)>,
) -> Result<(), AllocError>
    requires { slot < length kept.old.items }
    ensures kept { (variables : List Variable) → AreKept variables kept.old.items → Says variables line.now inputs
        → AreKept variables kept.new.items }
    ensures inputs { inputs_at kept.new.items slot ≡ inputs }
{
    kept[slot].set(line, inputs)
}
