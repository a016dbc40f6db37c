//! The inputs and outputs of a program, as lines name them.

ghost use Rattle.std.specs.Prelude.{◌≡◌, IfOk, OnOk, IsErrOf, length, Some, None};
ghost use Rattle.serde_json.specs.Data.{Members};
ghost use Rattle.trace_lines.specs.Line.{IsObjectOf, inputs_of};
ghost use Rattle.trace_lines.specs.Output.{outputs_of, tick_line};

use crate::expected::{Expected, expected_of};
use crate::inputs::named_inputs;
use crate::line::{LineFault, inputs_by, object_of};
use crate::members::{LineRoom, plain_inputs};
use crate::output::write_line;
use crate::outputs::{Row, rows_of};
use sc_graph::Variable;
use sc_values::{Name, Value};
use sqlite_items::Items;
use std::alloc::{AllocError, Global};
use std::collections::BTreeMap;
use std::marker::Model;

/// The inputs and outputs of a program, as lines name them: made once for all lines. Contracts see the
/// variables of the program.
#[derive(Drop)]
pub struct Interface<'a> {
    variables: &'a [Variable],
    inputs: BTreeMap<String, Variable>,
    expected: Expected,
    outputs: Vec<Row>,
}

impl<'a> Model for Interface<'a> {
    ghost use Rattle.std.specs.Prelude.{List};
    ghost use Rattle.sc_graph.specs.declared.program.Variable.{Variable};
    ghost use Rattle.trace_lines.specs.Inside.Expected.{ListsInputs};
    ghost use Rattle.trace_lines.specs.Inside.Named.{NamesInputs};
    ghost use Rattle.trace_lines.specs.Inside.Rows.{ShowsOutputs};

    ghost Value = { List Variable };

    ghost view = { λ i. i.variables.now };

    ghost invariant = { λ i. NamesInputs i.variables.now i.inputs × ShowsOutputs i.variables.now i.outputs.items
        × ListsInputs i.variables.now i.expected.inputs.items };
}

impl<'a> Interface<'a> {
    /// The interface of a program of these variables.
    pub fn of(alloc: Global, variables: &'a [Variable]) -> Result<Interface<'a>, AllocError>
        ensures { IfOk result (λ interface. interface ≡ variables.now) }
    {
        let inputs = named_inputs(alloc, variables)?;
        let expected = expected_of(alloc, variables, &inputs)?;
        let outputs = rows_of(alloc, variables)?;
        Ok(Interface {
            variables,
            inputs,
            expected,
            outputs,
        })
    }

    /// What a line of input gives to the inputs. A repeated member counts with its last value. `NotJson`
    /// where the line is no JSON object, `Input` where it is one and a member gives nothing.
    pub fn read_line(&self, alloc: Global, line: &[u8]) -> Result<Items<(Name, Value)>, LineFault>
        ensures ok { IfOk result (λ inputs. (members : Members)
            × IsObjectOf line.now members × (inputs_of self.now members ≡ Some inputs)) }
        ensures not_json { IsErrOf result LineFault.NotJson
            → (members : Members) → ¬ IsObjectOf line.now members }
        ensures input { IsErrOf result LineFault.Input → (members : Members)
            × IsObjectOf line.now members × (inputs_of self.now members ≡ None) }
    {
        let members = object_of(alloc, line)?;
        inputs_by(alloc, self.variables, &self.inputs, &members)
    }

    /// What a line of input gives to the inputs, as `read_line` says, read in a room that is kept from line
    /// to line. An object in which each member gives a value is read without a tree of its members, and
    /// takes no memory but that of what it gives and what the room grows.
    pub fn read_line_in(
        &self,
        alloc: Global,
        room: &mut LineRoom,
        line: &[u8],
    ) -> Result<Items<(Name, Value)>, LineFault>
        ensures ok { IfOk result (λ inputs. (members : Members)
            × IsObjectOf line.now members × (inputs_of self.now members ≡ Some inputs)) }
        ensures not_json { IsErrOf result LineFault.NotJson
            → (members : Members) → ¬ IsObjectOf line.now members }
        ensures input { IsErrOf result LineFault.Input → (members : Members)
            × IsObjectOf line.now members × (inputs_of self.now members ≡ None) }
    {
        match plain_inputs(alloc, room, self.variables, &self.expected, line)? {
            Some(inputs) => Ok(inputs),
            None => self.read_line(alloc, line),
        }
    }

    /// Makes `line` the output line of a tick of this number: its steps, and the values of the outputs after
    /// it, in the order of their names.
    pub fn write_line(
        &self,
        line: &mut Vec<u8>,
        tick: u64,
        steps: u64,
        values: &[Value],
    ) -> Result<(), AllocError>
        requires { length values.now ≡ length self.now }
        ensures { OnOk result (line.new.items ≡ tick_line tick steps (outputs_of self.now values.now)) }
    {
        write_line(line, tick, steps, &self.outputs, values)
    }
}
