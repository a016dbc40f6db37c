//! The states that the author of a text wrote: of a chart its own; of an extended chart those for which states of the
//! chart stand to which it is reduced.

ghost use Rattle.std.specs.Prelude.{◌≡◌, IfOk, length, map, string_bytes};
ghost use Rattle.image_charts.specs.Written.{told_by, told_of_author};
ghost use Rattle.core_charts.specs.Paths.{paths_of};

use author_states::AuthorStates;
use compiled_charts::Compiled;
use core_charts::{Chart, paths_of};
use sqlite_items::Items;
use std::alloc::{AllocError, Global};
use std::marker::Model;

/// A compiled chart, whose nodes stand for the states that the author of its text wrote, and the paths of these.
#[derive(Drop)]
pub(crate) struct Written {
    compiled: Compiled,
    paths: Vec<String>,
}

impl Model for Written {
    ghost use Rattle.std.specs.Prelude.{map, string_bytes};
    ghost use Rattle.image_charts.specs.Charts.{NamedStates};

    ghost Value = { NamedStates };

    ghost view = { λ w. record { compiled = w.compiled; paths = map string_bytes w.paths.items } };
}

impl Written {
    /// Those of the author of an extended chart that is reduced to a chart which is compiled so, or else of the chart.
    pub(crate) fn of(
        alloc: Global,
        chart: &Chart,
        compiled: Compiled,
        authors: Option<AuthorStates>,
    ) -> Result<Written, AllocError>
        ensures { IfOk result (λ written. written
            ≡ told_by authors (record { compiled = compiled; paths = paths_of chart.now })) }
    {
        match authors {
            Some(states) => Written::of_author(alloc, compiled, states),
            None => match paths_of(alloc, chart) {
                Ok(paths) => Ok(Written { compiled, paths }),
                Err(error) => {
                    drop(compiled);
                    Err(error)
                }
            },
        }
    }

    // Those of an author, for which states of a chart stand that is compiled so. Err: no memory holds so many; or it
    // was refused.
    fn of_author(
        alloc: Global,
        compiled: Compiled,
        states: AuthorStates,
    ) -> Result<Written, AllocError>
        ensures { IfOk result (λ written. written ≡ told_of_author states compiled) }
    {
        match states.past(alloc, compiled.nodes()) {
            Ok(nodes) => Written::standing_for(compiled, nodes, states.into_paths()),
            Err(error) => {
                drop(compiled);
                drop(states);
                Err(error)
            }
        }
    }

    // A compiled chart, whose nodes stand for the states of these paths. Err: no memory holds so many.
    fn standing_for(
        compiled: Compiled,
        nodes: Items<Option<u32>>,
        paths: Vec<String>,
    ) -> Result<Written, AllocError>
        ensures { IfOk result (λ written. written ≡ record {
          compiled = record { image = compiled.image; states = length paths.items; nodes = nodes };
          paths = map string_bytes paths.items;
        }) }
    {
        match u32::try_from(paths.len()) {
            Ok(count) => Ok(Written {
                compiled: compiled.standing_for(count, nodes),
                paths,
            }),
            Err(_) => {
                drop(compiled);
                drop(nodes);
                drop(paths);
                Err(AllocError)
            }
        }
    }

    /// The compiled chart.
    pub(crate) fn compiled(&self) -> &Compiled
        ensures { result.now ≡ self.now.compiled }
    {
        &self.compiled
    }

    /// The paths of the states.
    pub(crate) fn paths(&self) -> &[String]
        ensures { map string_bytes result.now ≡ self.now.paths }
    {
        &self.paths
    }
}
