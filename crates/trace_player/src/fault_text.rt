//! The texts of faults.

use crate::player::PlayFault;
use std::error::Error;
use std::fmt;

impl fmt::Display for PlayFault {
    ghost use Rattle.std.specs.Prelude.{Some};
    ghost use Rattle.trace_player.specs.FaultText.{play_fault_text};

    ghost output = { λ fault. Some (play_fault_text fault) };

    fn fmt<W: fmt::Write>(&self, f: &mut fmt::Formatter<W>) -> fmt::Result {
        match self {
            PlayFault::Input(line) => write!(f, "E51 line {line}"),
            PlayFault::Memory => write!(f, "E52"),
            PlayFault::Read => write!(f, "E61"),
            PlayFault::NotJson(line) => write!(f, "E62 line {line}"),
            PlayFault::Write => write!(f, "E63"),
        }
    }
}

impl Error for PlayFault {}
