//! What holds of each printed text.

ghost use Rattle.scl_printer_laws.specs.Nesting.{PrintedExpressionsNest};
ghost use Rattle.scl_printer_laws.specs.Programs.{PrintedProgramsReadBack};
ghost use Rattle.scl_printer_laws.specs.Reading.{PrintedExpressionsAreRead};

/// No expression of a program opens more parentheses and prefix operators in print than a reader takes.
/// This function does nothing; its contract is the law.
pub fn printed_expressions_nest()
    ensures { PrintedExpressionsNest }
{}

/// What is printed of an expression is cut into tokens that spell this expression, where it is well kinded,
/// within the limits of codes, and such that a text can write it. This function does nothing; its contract is
/// the law.
pub fn printed_expressions_are_read()
    ensures { PrintedExpressionsAreRead }
{}

/// What is printed of a program reads back as that program, where its names are names and its numbers fit in
/// 32 bits, as its types in Rust give. This function does nothing; its contract is the law.
pub fn printed_programs_read_back()
    ensures { PrintedProgramsReadBack }
{}
