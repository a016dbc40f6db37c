//! The start of a tick from the configuration in which it begins.

ghost use Rattle.std.specs.Prelude.{◌≡◌};
ghost use Rattle.std.specs.Bool.{OnTrue};
ghost use Rattle.tick_core.specs.Rows.{AreEmpty};
ghost use Rattle.sc_graph.specs.Tick.{IsConfiguration};
ghost use Rattle.sc_graph.specs.Valid.{IsValid};
ghost use Rattle.tick_core.specs.Again.{begun_again};
ghost use Rattle.tick_core.specs.Parked.{IsSpaceOf};
ghost use Rattle.tick_core.specs.State.{BeginsTick};
ghost use Rattle.tick_core.specs.Space.Living.{CountsLiving};
ghost use Rattle.tick_core.specs.Space.Sorting.{StandSorted};
ghost use Rattle.tick_core.specs.Space.There.{AreAbsent, AreListed};

use crate::copying::copy_into;
use crate::listed::Listed;
use crate::sorting::sort_listed;
use crate::state::{ParkedSpace, TickSpace, TickState};
use crate::there::{clear_listed, list_all, list_everybody};
use crate::waking::count_and_sort;
use sc_graph::{Control, Program};
use verifier::Verified;

impl ParkedSpace {
    // Lists the threads that are present, and counts the children of those that wait. Whether all of them are listed,
    // and nobody stands in a row. In the configuration that is kept nobody is present then.
    #[tactic(auto, using(crate::proofs::ListedCopied::absent_listed))]
    pub(super) fn list_present(&mut self, verified: &Verified, control: &Control) -> bool
        requires space { IsSpaceOf verified.now self.old }
        requires configuration { IsConfiguration verified.now.program control.now }
        ensures space { IsSpaceOf verified.now self.new }
        ensures absent { AreAbsent self.new.spare.statuses }
        ensures listed { OnTrue result (AreListed control.now.statuses self.new.listed.items) }
        ensures counted { OnTrue result (CountsLiving verified.now.program control.now self.new.living.items) }
        ensures bare { OnTrue result (AreEmpty self.new.rows) }
        ensures given { self.new.given ≡ self.old.given }
    {
        clear_listed(self.listed.as_slice(), &mut self.spare.statuses);
        if !self.rows.is_empty() {
            return false;
        }
        let program = verified.image().program();
        let room = program.threads().len();
        list_all(
            &self.joins,
            program,
            control,
            room,
            &mut self.listed,
            &mut self.living,
        )
    }
}

impl<'a> TickSpace<'a> {
    /// Begins a tick of the image again, from the configuration in which one began, which is given up. It takes no
    /// memory.
    pub fn begin_again(self, begun: Control) -> TickState<'a>
        requires { BeginsTick self.program begun }
        ensures { result ≡ begun_again self.entry begun }
    {
        let TickSpace { verified, mut room } = self;
        let image = verified.image();
        let program = image.program();
        copy_into(&begun, &mut room.spare);
        list_everybody(program, &mut room.listed);
        count_and_sort(
            &room.joins,
            program,
            image.tables(),
            &room.spare,
            &mut room.living,
            &mut room.rows,
        );
        begin_in(verified, room, begun)
    }
}

/// Begins a tick again, from the configuration in which one began, where the room holds the same, all threads that are
/// present are listed and counted, and nobody stands in a row. It takes no memory.
pub(super) fn begin_listed<'a>(
    verified: &'a Verified,
    room: ParkedSpace,
    begun: Control,
) -> TickState<'a>
    requires space { IsSpaceOf verified.now room }
    requires begins { BeginsTick verified.now.program begun }
    requires listed { AreListed begun.statuses room.listed.items }
    requires counted { CountsLiving verified.now.program begun room.living.items }
    requires bare { AreEmpty room.rows }
    requires same { room.spare ≡ begun }
    ensures { result ≡ begun_again verified.now begun }
{
    let mut room = room;
    let image = verified.image();
    sort_listed(
        image.program(),
        image.tables(),
        &begun,
        &room.living,
        room.listed.as_slice(),
        &mut room.rows,
    );
    begin_in(verified, room, begun)
}

// Begins a tick again in a room that holds the configuration in which it begins, all of whose threads are counted and
// sorted, and those that are present listed.
#[inline(always)]
fn begin_in<'a>(verified: &'a Verified, room: ParkedSpace, begun: Control) -> TickState<'a>
    requires space { IsSpaceOf verified.now room }
    requires valid { IsValid verified.now.program verified.now.tables }
    requires begins { BeginsTick verified.now.program begun }
    requires same { room.spare ≡ begun }
    requires listed { AreListed begun.statuses room.listed.items }
    requires counted { CountsLiving verified.now.program begun room.living.items }
    requires sorted { StandSorted verified.now.program verified.now.tables begun room.rows }
    ensures { result ≡ begun_again verified.now begun }
{
    let ParkedSpace {
        joins,
        rows,
        variable_kinds,
        mut history,
        claims,
        living,
        given,
        spare: present,
        listed: threads,
        places,
    } = room;
    history.clear();
    let listed = Listed {
        threads,
        places,
        is_whole: true,
        is_all: true,
        may_be_gone: true,
    };
    TickState {
        verified,
        joins,
        rows,
        variable_kinds,
        begun,
        present,
        history,
        claims,
        claimed: 0,
        level: 0,
        living,
        given,
        listed,
    }
}
