//! The parts of modules and of their uses.

use sc_text::{Named, Token, TokenKind};
use sc_values::{Kind, Name};
use sqlite_items::Items;

/// What a parameter is declared as. None of these: another word than `const` stands before it.
#[derive(Clone, Copy)]
pub enum ParameterRole {
    Input,
    Output,
    Constant,
    Other,
}

/// A parameter of a module, and the place of its first word.
#[derive(Clone, Copy)]
pub struct Parameter {
    pub role: ParameterRole,
    pub at: usize,
    pub kind: Kind,
    pub named: Named,
}

/// What stands before the body of a module.
#[derive(Drop)]
pub struct ModuleHead {
    pub named: Named,
    pub parameters: Items<Parameter>,
}

/// A use of a module: its name, the arguments, the word before the name of the use, and that.
#[derive(Drop)]
pub struct ModuleUse {
    pub called: Named,
    pub arguments: Items<Token>,
    pub word: Named,
    pub named: Named,
}

/// A module that uses no other: its parameters, its items, and its regions.
#[derive(Drop)]
pub struct Module {
    pub named: Named,
    pub parameters: Items<Parameter>,
    pub items: Items<Token>,
    pub regions: Items<Token>,
}

/// A name, and the token that stands in place of it.
#[derive(Clone, Copy)]
pub struct Replacement {
    pub name: Name,
    pub by: TokenKind,
}

/// A name that is declared where a module is used.
#[derive(Clone, Copy)]
pub struct Known {
    pub kind: Kind,
    pub is_constant: bool,
    pub is_assignable: bool,
    pub name: Name,
}
