//! Notes: what was published so far.

ghost use Rattle.std.specs.Prelude.{◌≡◌, ◌⊎◌, ◌++◌, ◌∷◌, [], Some};
ghost use Rattle.probe.specs.Progress.{Extends, count_of, last_of};

use crate::history::Beginning;
use crate::tick_end::TickEnd;
use std::marker::Model;

/// What an observer sees: how many ticks have ended, where the number stays at its greatest, and the outputs after the
/// last of them, or before the first.
#[derive(Drop)]
pub struct Seen {
    pub ticks: u64,
    pub outputs: TickEnd,
}

/// What a publisher told: its ticks so far. Its size does not grow with them.
#[derive(Drop)]
pub struct Note {
    last: TickEnd,
    beginning: Beginning,
}

impl Model for Note {
    ghost use Rattle.std.specs.Prelude.{◌≡◌, Some};
    ghost use Rattle.probe.specs.Progress.{Progress, last_of};

    ghost Value = { Progress };

    ghost view = { λ n. n.beginning };

    ghost invariant = { λ n. last_of n.beginning ≡ Some n.last };
}

impl Note {
    /// The note of this beginning, which ends with this row.
    pub(crate) fn of(last: TickEnd, beginning: &Beginning) -> Note
        requires { last_of beginning.now ≡ Some last }
        ensures { result ≡ beginning.now }
    {
        Note {
            last,
            beginning: beginning.again(),
        }
    }

    /// A copy.
    pub(crate) fn again(&self) -> Note
        ensures { result ≡ self.now }
    {
        Note {
            last: self.last.again(),
            beginning: self.beginning.again(),
        }
    }

    /// Afterwards it knows what both knew. Of what is known of one publisher one always extends the other.
    pub(crate) fn learn(&mut self, other: &Note)
        requires { other.now.publisher ≡ self.old.publisher }
        ensures own { Extends self.old self.new }
        ensures other { Extends other.now self.new }
        ensures one { (self.new ≡ self.old) ⊎ (self.new ≡ other.now) }
    {
        if other.beginning.begins_with(&self.beginning) {
            *self = other.again();
        }
    }

    /// The count of the ticks, and the last row.
    pub(crate) fn shown(&self) -> Seen
        ensures ticks { result.ticks ≡ count_of self.now }
        ensures outputs { last_of self.now ≡ Some result.outputs }
    {
        Seen {
            ticks: self.beginning.count(),
            outputs: self.last.again(),
        }
    }
}
