//! Which arguments fit the parameters of a module.

ghost use Rattle.std.specs.Prelude.{◌≡◌, MatchResult};
ghost use Rattle.extended_reader.specs.Answer.{Good, Tells};
ghost use Rattle.extended_reader.specs.Known.{same_kind, role_misfit, name_misfit, literal_misfit, misfit, misfit_at};
ghost use Rattle.extended_reader.specs.Known.{fitting};

use crate::modules::known::{is_constant, known_named};
use crate::modules::parts::{Known, Parameter, ParameterRole};
use sc_text::{FaultKind, ReadFault, Token, TokenKind};
use sc_values::Kind;

fn same_kind(first: Kind, second: Kind) -> bool
    ensures { result ≡ same_kind first second }
{
    match first {
        Kind::Bool => match second {
            Kind::Bool => true,
            Kind::Int => false,
        },
        Kind::Int => match second {
            Kind::Bool => false,
            Kind::Int => true,
        },
    }
}

fn role_misfit(role: ParameterRole, known: Known) -> Option<FaultKind>
    ensures { result ≡ role_misfit role known }
{
    match role {
        ParameterRole::Constant if !known.is_constant => Some(FaultKind::Kind),
        ParameterRole::Output if !known.is_assignable => Some(FaultKind::Rule),
        _ => None,
    }
}

fn name_misfit(parameter: &Parameter, known: Option<Known>) -> Option<FaultKind>
    ensures { result ≡ name_misfit parameter.now known }
{
    match known {
        Some(known) => {
            if same_kind(parameter.kind, known.kind) {
                role_misfit(parameter.role, known)
            } else {
                Some(FaultKind::Kind)
            }
        }
        None => Some(FaultKind::Unknown),
    }
}

fn literal_misfit(parameter: &Parameter, kind: Kind) -> Option<FaultKind>
    ensures { result ≡ literal_misfit parameter.now kind }
{
    if is_constant(parameter.role) && same_kind(parameter.kind, kind) {
        None
    } else {
        Some(FaultKind::Kind)
    }
}

fn misfit(known: &[Known], parameter: &Parameter, kind: TokenKind) -> Option<FaultKind>
    ensures { result ≡ misfit known.now parameter.now kind }
{
    match kind {
        TokenKind::Name(name) => name_misfit(parameter, known_named(known, name)),
        TokenKind::Number(_) => literal_misfit(parameter, Kind::Int),
        _ => literal_misfit(parameter, Kind::Bool),
    }
}

fn misfit_at(at: usize, misfit: Option<FaultKind>) -> Result<(), ReadFault>
    ensures { MatchResult result (λ _. misfit_at at misfit ≡ Good tt) (Tells (misfit_at at misfit)) }
{
    match misfit {
        Some(broken) => Err(ReadFault::Text(broken, at)),
        None => Ok(()),
    }
}

/// Err: the fault of the first argument that does not fit its parameter.
pub(crate) fn fitting(
    known: &[Known],
    parameters: &[Parameter],
    arguments: &[Token],
) -> Result<(), ReadFault>
    ensures { MatchResult result (λ _. fitting known.now parameters.now arguments.now ≡ Good tt)
        (Tells (fitting known.now parameters.now arguments.now)) }
{
    let mut left = arguments;
    for parameter in parameters {
        match left {
            [argument, behind @ ..] => {
                misfit_at(argument.at, misfit(known, parameter, argument.kind))?;
                left = behind;
            }
            [] => return Ok(()),
        }
    }
    Ok(())
}
