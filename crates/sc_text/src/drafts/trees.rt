//! The tree that is left when an expression is built from its operations.

ghost use Rattle.std.specs.Prelude.{◌≡◌, false, reverse, unwrap_or};
ghost use Rattle.sc_values.specs.declared.expression.Expr.TheVariants as tree;
ghost use Rattle.sc_values.specs.Code.{only};

use sc_values::{Expr, Value};
use sqlite_items::Items;

/// The tree, where nothing but that stands there, else `false`.
pub(crate) fn only(trees: &mut Items<Expr>) -> Expr
    ensures { result ≡ unwrap_or (only (reverse trees.old)) (tree.Literal (Value.Bool false)) }
{
    match sc_values::only_tree(trees) {
        Some(tree) => tree,
        None => Expr::Literal(Value::Bool(false)),
    }
}
