//! What a line gives to the inputs, read member by member.

ghost use Rattle.std.specs.Prelude.{◌≡◌, ◌∷◌, IfOk, IfSome, IsTrue, MatchOption, Some, None, option_and_then};
ghost use Rattle.json.specs.Token.{begin_object};
ghost use Rattle.json.specs.Json.{read_key};
ghost use Rattle.json.specs.Reads.{token_of};
ghost use Rattle.serde_json.specs.Data.{Members, object};
ghost use Rattle.serde_json.specs.Find.{as_i64};
ghost use Rattle.serde_json.specs.Read.{read, number_of};
ghost use Rattle.trace_lines.specs.Line.{int32_of, IsObjectOf, inputs_of};
ghost use Rattle.trace_lines.specs.Inside.Expected.{ListsInputs, GivesFirstTo, BeginsGivingTo};
ghost use Rattle.trace_lines.specs.Inside.Members.{Spells, GivesAll};

use crate::expected::{Expected, place_of};
use crate::giving::give;
use crate::integers::integer_of;
use json::{Reader, Scratch, Token};
use sc_graph::Variable;
use sc_values::{Kind, Name, Value};
use sqlite_items::Items;
use std::alloc::{AllocError, Global};

// A member and the comma or brace behind it have at least as many bytes.
const SHORTEST_MEMBER: usize = 6;

/// The room that lines are read in: made once, and kept from line to line.
#[derive(Drop)]
pub struct LineRoom {
    scratch: Scratch,
}

impl LineRoom {
    /// Room for lines. It grows with the longest one.
    pub fn new(alloc: Global) -> LineRoom {
        LineRoom {
            scratch: Scratch::new(alloc),
        }
    }
}

// What is no member that gives true, false or an integer.
#[derive(Clone, Copy, PartialEq, Eq)]
struct Unusual;

// The value of an input of integers that the text of a number spells.
fn integer_value(text: &str) -> Option<Value>
    ensures { IfSome result
        (λ v. option_and_then int32_of (option_and_then as_i64 (number_of text.now)) ≡ Some v) }
{
    let integer = i32::try_from(integer_of(text)?).ok()?;
    Some(Value::Int(integer))
}

// The value of this kind that a token is, where it is true, false or an integer.
fn value_of(kind: Kind, token: Token<'_>) -> Option<Value>
    ensures { IfSome result (λ v. Spells kind (token_of token.entry) v) }
{
    match (kind, token) {
        (Kind::Bool, Token::Bool(value)) => Some(Value::Bool(value)),
        (Kind::Int, Token::Number(text)) => integer_value(text),
        _ => None,
    }
}

// What a member of this name gives, of which the value comes next: the value, and the place of the input.
fn given_first(
    variables: &[Variable],
    expected: &Expected,
    from: usize,
    name: &str,
    reader: &mut Reader<'_>,
) -> Option<(usize, Value)>
    requires { ListsInputs variables.now expected.now.inputs.items }
    ensures { IfSome result
        (λ p. GivesFirstTo variables.now expected.now.inputs.items name.now reader.old reader.new p) }
{
    let place = place_of(expected, from, name)?;
    let input = sqlite_items::at(&expected.inputs, place)?;
    let value = value_of(input.1.kind(), reader.next()?)?;
    Some((place, value))
}

// What the next member gives. None: there is none.
fn next_given(
    variables: &[Variable],
    expected: &Expected,
    from: usize,
    reader: &mut Reader<'_>,
) -> Result<Option<(usize, Value)>, Unusual>
    requires { ListsInputs variables.now expected.now.inputs.items }
    ensures { IfOk result (λ next. MatchOption next (read_key reader.old ≡ Some (None, reader.new))
        (λ p. BeginsGivingTo variables.now expected.now.inputs.items reader.old reader.new p)) }
{
    match reader.next_key() {
        Ok(Some(name)) => match given_first(variables, expected, from, name, reader) {
            Some(given) => Ok(Some(given)),
            None => Err(Unusual),
        },
        Ok(None) => Ok(None),
        Err(_) => Err(Unusual),
    }
}

// What all members, of which there are no more than `most`, give up to the end of the object. None: one is
// unusual, or they are many, and not in the order of their names.
fn all_given(
    alloc: Global,
    variables: &[Variable],
    expected: &Expected,
    most: usize,
    reader: &mut Reader<'_>,
) -> Result<Option<Vec<(Name, Value)>>, AllocError>
    requires { ListsInputs variables.now expected.now.inputs.items }
    ensures { IfOk result (λ all. IfSome all
        (λ found. GivesAll variables.now reader.old reader.new found.items)) }
{
    let mut found = Vec::with_capacity(alloc, expected.inputs.len().min(most))?;
    let mut from = 0;
    'members: loop {
        match next_given(variables, expected, from, reader) {
            Ok(Some(given)) => match give(&mut found, &expected.inputs, from, given)? {
                Some(next) => from = next,
                None => return Ok(None),
            },
            Ok(None) => return Ok(Some(found)),
            Err(Unusual) => return Ok(None),
        }
    }
}

// Whether an object begins. Then what is left begins with its members.
fn begins_object(reader: &mut Reader<'_>) -> bool
    ensures { IsTrue result → reader.old ≡ begin_object ∷ reader.new }
{
    matches!(reader.next(), Some(Token::BeginObject))
}

// What a text gives. None: it is unusual.
fn given_by(
    alloc: Global,
    variables: &[Variable],
    expected: &Expected,
    text: &str,
    scratch: &mut Scratch,
) -> Result<Option<Items<(Name, Value)>>, AllocError>
    requires { ListsInputs variables.now expected.now.inputs.items }
    ensures { IfOk result (λ all. IfSome all (λ inputs. (members : Members)
        × (read text.now ≡ Some (object members)) × (inputs_of variables.now members ≡ Some inputs))) }
{
    let mut reader = Reader::new(text, scratch)?;
    if !begins_object(&mut reader) {
        return Ok(None);
    }
    let most = text.len() / SHORTEST_MEMBER;
    let Some(found) = all_given(alloc, variables, expected, most, &mut reader)? else {
        return Ok(None);
    };
    if reader.next().is_some() {
        return Ok(None);
    }
    Ok(Some(Items::from_vec(found)))
}

/// What a line gives to these inputs, which are among the variables, where it is an object in which each
/// member gives true, false or an integer. None: it has to be read in another way, as have many members
/// that are not in the order of their names.
pub(crate) fn plain_inputs(
    alloc: Global,
    room: &mut LineRoom,
    variables: &[Variable],
    expected: &Expected,
    line: &[u8],
) -> Result<Option<Items<(Name, Value)>>, AllocError>
    requires { ListsInputs variables.now expected.now.inputs.items }
    ensures { IfOk result (λ all. IfSome all (λ inputs. (members : Members)
        × IsObjectOf line.now members × (inputs_of variables.now members ≡ Some inputs))) }
{
    match simdutf8::basic::from_utf8(line) {
        Ok(text) => given_by(alloc, variables, expected, text, &mut room.scratch),
        Err(_) => Ok(None),
    }
}
