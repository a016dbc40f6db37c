//! Kinds and values, operators, expressions as trees and as postfix codes, names, and sources and
//! sinks of bytes.
#![tactic(auto)]

mod assignment;
mod checked;
mod code;
mod code_fault;
mod code_loads;
mod code_trees;
mod divisor;
mod evaluation;
mod expression;
mod last_operation;
mod laws;
mod limits;
mod memory;
mod name;
mod of_std;
mod operands;
mod operation;
mod operator;
mod stack;
mod streams;
mod value;
mod well_formed;

pub use assignment::CodedAssignment;
pub use checked::CheckedCode;
pub use code::Code;
pub use code_fault::CodeFault;
pub use code_trees::{grow_trees, only_tree, tree_of};
pub use divisor::Divisor;
pub use evaluation::eval;
pub use expression::Expr;
pub use laws::code_spells_one_tree;
pub use limits::{LOAD_LIMIT, NAME_LIMIT, OPERAND_LIMIT, OPERATION_LIMIT};
pub use memory::{FromSlice, Plan, ToVec};
pub use name::Name;
pub use of_std::{Failures, OfRead, OfWrite};
pub use operands::Operands;
pub use operation::Operation;
pub use operator::{BinaryOperator, Combination, UnaryOperator};
pub use streams::{Failed, Progress, Sink, Source, write_all};
pub use value::{Kind, Value};
