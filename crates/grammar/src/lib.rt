//! Grammars as data: what they spell, reading them with one token ahead, and the place and the kind
//! of the first fault, for every grammar that can be read so.
#![tactic(auto)]

ghost use Rattle.grammar.specs.Sums.{SumsAreTold};

/// An example of what is proved of every grammar that one token ahead decides: reading a text of
/// sums in parentheses tells what it sums to, exactly where it spells a sum, and else its one fault.
/// This function does nothing; its contract is the law.
pub fn sums_are_told()
    ensures { SumsAreTold }
{}
