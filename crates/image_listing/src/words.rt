//! The words of a variable's kind and role.

ghost use Rattle.std.specs.Prelude.{◌≡◌};
ghost use Rattle.image_listing.specs.Words.{kind_text, role_text};

use sc_graph::Role;
use sc_values::Kind;

/// What a variable is to the outside.
pub fn role_text(role: Role) -> &'static str
    ensures { result.now ≡ role_text role }
{
    match role {
        Role::Input => "input",
        Role::Output => "output",
        Role::Local => "local",
    }
}

/// What kind of values a variable has.
pub fn kind_text(kind: Kind) -> &'static str
    ensures { result.now ≡ kind_text kind }
{
    match kind {
        Kind::Bool => "bool",
        Kind::Int => "int",
    }
}
