//! The law of codes: each spells one tree, or none.

ghost use Rattle.std.specs.Prelude.{◌≡◌, ◌↔◌, List, Some};
ghost use Rattle.sc_values.specs.declared.expression.Expr.{Expr};
ghost use Rattle.sc_values.specs.declared.operation.Operation.{Operation};
ghost use Rattle.sc_values.specs.Code.{Spells, tree_of};

/// What holds of every code, of whatever length: it spells one expression or none, and running it
/// over a stack of trees finds that one. The function does nothing: its contract is the law.
pub fn code_spells_one_tree()
    ensures one { (code : List Operation) (d e : Expr) → Spells code d → Spells code e → d ≡ e }
    ensures found { (code : List Operation) (e : Expr) → (tree_of code ≡ Some e) ↔ Spells code e }
{}
