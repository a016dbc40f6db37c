//! The text of a fault: the number of its rule, and the place.

ghost use Rattle.std.specs.Prelude.{◌≡◌};
ghost use Rattle.verifier.specs.Verdict.{fault_number};

use crate::rule::{Broken, Refusal, Rule};
use sc_graph::Place;
use std::error::Error;
use std::fmt;

impl Rule {
    /// The number of its fault.
    pub fn fault_number(self) -> u8
        ensures { result ≡ fault_number self }
    {
        match self {
            Rule::Size => 31,
            Rule::Structure => 32,
            Rule::Code => 33,
            Rule::Assignment => 34,
            Rule::EndBit => 35,
            Rule::NoConflict => 36,
            Rule::Flow => 37,
            Rule::Protocol => 38,
            Rule::Weight => 39,
            Rule::Bound => 40,
        }
    }
}

impl fmt::Display for Broken {
    ghost use Rattle.std.specs.Prelude.{Some};
    ghost use Rattle.verifier.specs.FaultText.{fault_text};

    ghost output = { λ broken. Some (fault_text broken) };

    fn fmt<W: fmt::Write>(&self, f: &mut fmt::Formatter<W>) -> fmt::Result {
        write!(f, "E{} {}", self.rule.fault_number(), Named(self.place))
    }
}

// A place, by what it is and its number.
#[derive(Clone, Copy)]
struct Named(Place);

impl fmt::Display for Named {
    ghost use Rattle.std.specs.Prelude.{Some};
    ghost use Rattle.verifier.specs.FaultText.{place_text};

    ghost output = { λ named. Some (place_text named.0) };

    fn fmt<W: fmt::Write>(&self, f: &mut fmt::Formatter<W>) -> fmt::Result {
        match self.0 {
            Place::Image => write!(f, "image"),
            Place::Variable(variable) => write!(f, "variable {variable}"),
            Place::Thread(thread) => write!(f, "thread {thread}"),
            Place::Node(node) => write!(f, "{node}"),
            Place::Pair(first, second) => write!(f, "{first} {second}"),
        }
    }
}

impl fmt::Display for Refusal {
    ghost use Rattle.std.specs.Prelude.{Some};
    ghost use Rattle.verifier.specs.FaultText.{refusal_text};

    ghost output = { λ refusal. Some (refusal_text refusal) };

    fn fmt<W: fmt::Write>(&self, f: &mut fmt::Formatter<W>) -> fmt::Result {
        match self {
            Refusal::Broken(broken) => write!(f, "{broken}"),
            Refusal::Memory => write!(f, "E52"),
        }
    }
}

impl Error for Refusal {}
