//! The outputs with which a tick ends.

ghost use Rattle.std.specs.Prelude.{◌≡◌, ◌≤◌, ◌<◌, ◌++◌, ◌∷◌, [], length, take, drop};
ghost use Rattle.std.specs.Ordering.{nat_cmp};
ghost use Rattle.std.specs.Cmp.Lexicographic.{slice_cmp};
ghost use Rattle.std.specs.List.Sorted.{IsPermutation, IsSortedByKey};
ghost use Rattle.sc_graph.specs.Limits.{output_limit};
ghost use Rattle.probe.specs.Outputs.{outputs_among, IsRowOf};

use sc_graph::{Control, OUTPUT_LIMIT, Role, Variable};
use sc_values::{Name, Value};
use std::marker::Model;
use verifier::Verified;

/// An output: its name and its value.
#[derive(Clone, Copy, PartialEq, Eq)]
pub struct Output {
    pub name: Name,
    pub value: Value,
}

impl Output {
    // What stands behind the last output of a row.
    fn blank() -> Output {
        Output {
            name: Name::of("_").unwrap(),
            value: Value::Bool(false),
        }
    }
}

/// The outputs with which a tick ended, in byte order of their names. Contracts see the row.
#[derive(Drop)]
pub struct TickEnd {
    // the outputs are the first `len`
    row: [Output; OUTPUT_LIMIT],
    len: usize,
}

impl Model for TickEnd {
    ghost use Rattle.std.specs.Prelude.{◌≡◌, ◌≤◌, length, take};
    ghost use Rattle.sc_graph.specs.Limits.{output_limit};
    ghost use Rattle.probe.specs.Outputs.{Outputs};

    ghost Value = { Outputs };

    ghost view = { λ e. take e.len e.row };

    ghost invariant = { λ e. (e.len ≤ output_limit) × (length e.row ≡ output_limit) };
}

impl TickEnd {
    /// The outputs of this image in this configuration, in byte order of their names. It takes no memory.
    pub fn of(verified: &Verified, control: &Control) -> TickEnd
        ensures { IsRowOf verified.now.program.variables control.now.variables result }
    {
        let variables = verified.image().program().variables();
        let mut end = TickEnd::declared(variables, control.variables.as_slice());
        end.order();
        end
    }

    /// The outputs, in byte order of their names.
    pub fn outputs(&self) -> &[Output]
        ensures value { result.now ≡ self.now }
        ensures few { length self.now ≤ output_limit }
    {
        &self.row[..self.len]
    }

    /// A copy. It takes no memory.
    pub fn again(&self) -> TickEnd
        ensures { result ≡ self.now }
    {
        let mut end = TickEnd::empty();
        end.fill(self.outputs());
        end
    }

    fn empty() -> TickEnd
        ensures { result ≡ [] }
    {
        TickEnd {
            row: [Output::blank(); OUTPUT_LIMIT],
            len: 0,
        }
    }

    // It becomes these outputs.
    fn fill(&mut self, outputs: &[Output])
        requires { length outputs.now ≤ output_limit }
        ensures { self.new ≡ outputs.now }
    {
        write_front(&mut self.row, outputs);
        self.len = outputs.len();
    }

    fn push(&mut self, output: Output)
        requires { length self.old < output_limit }
        ensures { self.new ≡ self.old ++ output ∷ [] }
    {
        self.row[self.len] = output;
        self.len += 1;
    }

    // The outputs among variables, with their values, in order of declaration.
    fn declared(variables: &[Variable], values: &[Value]) -> TickEnd
        requires { length (outputs_among variables.now values.now) ≤ output_limit }
        ensures { result ≡ outputs_among variables.now values.now }
    {
        let mut end = TickEnd::empty();
        for (variable, value) in variables.iter().zip(values) {
            if variable.role == Role::Output {
                end.push(Output {
                    name: variable.name,
                    value: *value,
                });
            }
        }
        end
    }

    fn order(&mut self)
        ensures all { IsPermutation self.old self.new }
        ensures ordered { IsSortedByKey (λ o. o.name) (slice_cmp nat_cmp) self.new }
    {
        order_front(&mut self.row, self.len);
    }
}

// Puts these outputs to the front.
fn write_front(row: &mut [Output], outputs: &[Output])
    requires { length outputs.now ≤ length row.old }
    ensures { row.new ≡ outputs.now ++ drop (length outputs.now) row.old }
{
    row[..outputs.len()].copy_from_slice(outputs);
}

// Puts the outputs before this place in byte order of their names.
fn order_front(row: &mut [Output], len: usize)
    requires { len ≤ length row.old }
    ensures len { length row.new ≡ length row.old }
    ensures all { IsPermutation (take len row.old) (take len row.new) }
    ensures ordered { IsSortedByKey (λ o. o.name) (slice_cmp nat_cmp) (take len row.new) }
{
    order(&mut row[..len]);
}

// Puts outputs in byte order of their names.
fn order(row: &mut [Output])
    ensures len { length row.new ≡ length row.old }
    ensures all { IsPermutation row.old row.new }
    ensures ordered { IsSortedByKey (λ o. o.name) (slice_cmp nat_cmp) row.new }
{
    row.sort_unstable_by_key(|output| output.name);
}
