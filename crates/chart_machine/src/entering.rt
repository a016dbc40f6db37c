//! The moves by which a state is entered.

ghost use Rattle.std.specs.Prelude.{◌≡◌, ◌∷◌, ◌++◌, [], OnOk, map};
ghost use Rattle.core_charts.specs.declared.region.Region.TheViews.{out-State};
ghost use Rattle.core_charts.specs.Tests.{first_closing_tests};
ghost use Rattle.chart_machine.specs.declared.standing.Standing.TheVariants as standing;
ghost use Rattle.chart_machine.specs.Table.{is_superstate, entered_superstate, subtree_of_region};
ghost use Rattle.chart_machine.specs.Inside.{entered_of};

use crate::chosen::{at_once, first_closing_tests, strong_aborts};
use crate::copies::put_moves;
use crate::standing::{Move, Standing};
use crate::table::TablePosition;
use core_charts::{State, Transition};
use sqlite_items::Items;
use std::alloc::{AllocError, Global};

// Puts what entering a state makes of regions behind other moves, where these are the moves by which its own regions
// are entered.
pub(crate) fn put_entered(
    alloc: Global,
    state: &State,
    at: &TablePosition,
    opened: &[Move],
    moves: &mut Items<Move>,
) -> Result<(), AllocError>
    ensures { OnOk result (moves.new ≡ moves.old ++ entered_of state.now at.now opened.now) }
{
    let transitions = state.transitions.as_slice();
    if state.is_final {
        return moves.push(Move {
            region: at.holder,
            standing: Standing::Ended,
        });
    }
    if is_superstate(state) {
        return put_entered_superstate(alloc, transitions, at, opened, moves);
    }
    let tests = at_once(alloc, transitions)?;
    moves.push(Move {
        region: at.holder,
        standing: Standing::Trying {
            state: at.state,
            tests,
        },
    })
}

#[tactic(auto, using(crate::proofs::Superstates::superstate_alike))]
fn is_superstate(state: &State) -> bool
    ensures { result ≡ is_superstate (map subtree_of_region (out-State state.now).regions) }
{
    state.is_superstate()
}

fn put_entered_superstate(
    alloc: Global,
    transitions: &[Transition],
    at: &TablePosition,
    opened: &[Move],
    moves: &mut Items<Move>,
) -> Result<(), AllocError>
    ensures { OnOk result (moves.new ≡ moves.old ++ entered_superstate at.now transitions.now opened.now) }
{
    let strong = strong_aborts(alloc, transitions)?;
    let tests = at_once(alloc, strong.as_slice())?;
    if !tests.is_empty() {
        return moves.push(Move {
            region: at.holder,
            standing: Standing::Entering {
                state: at.state,
                tests,
            },
        });
    }
    put_within(alloc, transitions, at, moves)?;
    put_moves(alloc, opened, moves)
}

// Puts the move into a superstate whose inside has the turn behind others.
fn put_within(
    alloc: Global,
    transitions: &[Transition],
    at: &TablePosition,
    moves: &mut Items<Move>,
) -> Result<(), AllocError>
    ensures { OnOk result (moves.new ≡ moves.old ++ record {
      region = at.now.holder;
      standing =
          standing.Within at.now.state (first_closing_tests transitions.now);
    } ∷ []) }
{
    let tests = first_closing_tests(alloc, transitions)?;
    moves.push(Move {
        region: at.holder,
        standing: Standing::Within {
            state: at.state,
            tests,
        },
    })
}
