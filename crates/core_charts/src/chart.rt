//! Charts and core charts.

ghost use Rattle.std.specs.Prelude.{◌≡◌, IfOk, SomeIff};
ghost use Rattle.core_charts.specs.declared.features.Features.TheVariants as features;
ghost use Rattle.core_charts.specs.Rules.{IsChart};

use crate::features::Features;
use crate::region::Region;
use crate::rules::is_chart;
use sc_graph::Variable;
use sc_values::Name;
use sqlite_items::Items;
use std::alloc::{AllocError, Global};
use std::marker::Model;

/// A chart that texts can spell: its variables, named by their numbers, and its regions. It keeps the rules
/// and limits of chart text. Contracts see its parts.
#[derive(Drop)]
pub struct Chart {
    name: Name,
    variables: Items<Variable>,
    regions: Items<Region>,
}

impl Model for Chart {
    ghost use Rattle.std.specs.Coded.{codes};
    ghost use Rattle.core_charts.specs.contracts.region.Region as region;
    ghost use Rattle.core_charts.specs.Chart as chart;
    ghost use Rattle.core_charts.specs.declared.features.Features.TheVariants as features;
    ghost use Rattle.core_charts.specs.Rules.{IsChart};

    ghost Value = { chart.Chart };

    ghost coded = { Prim.hlevel (codes, region.the_row.coded) };

    ghost view = { λ c. record { name = c.name; variables = c.variables; regions = c.regions } };

    ghost invariant = { λ c. IsChart features.Extended (record {
      name = c.name;
      variables = c.variables;
      regions = c.regions;
    }) };
}

impl Chart {
    /// The chart of these parts. None: they break a rule or a limit of chart text. Err: memory was refused.
    pub fn of(
        alloc: Global,
        name: Name,
        variables: Items<Variable>,
        regions: Items<Region>,
    ) -> Result<Option<Chart>, AllocError>
        ensures { IfOk result (λ chart. SomeIff chart (IsChart features.Extended
            (record { name = name; variables = variables; regions = regions }))
            (record { name = name; variables = variables; regions = regions })) }
    {
        if is_chart(
            alloc,
            Features::Extended,
            &name,
            variables.as_slice(),
            regions.as_slice(),
        )? {
            Ok(Some(Chart::known(name, variables, regions)))
        } else {
            Ok(None)
        }
    }

    /// The chart of these parts, which keep the rules and limits of chart text.
    pub fn known(name: Name, variables: Items<Variable>, regions: Items<Region>) -> Chart
        requires { IsChart features.Extended (record { name = name; variables = variables; regions = regions }) }
        ensures { result ≡ record { name = name; variables = variables; regions = regions } }
    {
        Chart {
            name,
            variables,
            regions,
        }
    }

    /// Its name.
    pub fn name(&self) -> Name
        ensures value { result ≡ self.now.name }
        ensures rules { IsChart features.Extended self.now }
    {
        self.name
    }

    /// Its variables, in order of their numbers.
    pub fn variables(&self) -> &[Variable]
        ensures value { result.now ≡ self.now.variables }
        ensures rules { IsChart features.Extended self.now }
    {
        self.variables.as_slice()
    }

    /// Its regions, in the order of the text.
    pub fn regions(&self) -> &[Region]
        ensures value { result.now ≡ self.now.regions }
        ensures rules { IsChart features.Extended self.now }
    {
        self.regions.as_slice()
    }
}

/// A chart without strong and weak aborts, as their expansion makes it: it keeps the rules and limits of
/// chart text, but for 64 regions a superstate, names that may begin with `_`, and no limit on states,
/// transitions and effects. Contracts see its parts.
#[derive(Drop)]
pub struct CoreChart {
    name: Name,
    variables: Items<Variable>,
    regions: Items<Region>,
}

impl Model for CoreChart {
    ghost use Rattle.std.specs.Coded.{codes};
    ghost use Rattle.core_charts.specs.contracts.region.Region as region;
    ghost use Rattle.core_charts.specs.Chart as chart;
    ghost use Rattle.core_charts.specs.declared.features.Features.TheVariants as features;
    ghost use Rattle.core_charts.specs.Rules.{IsChart};

    ghost Value = { chart.Chart };

    ghost coded = { Prim.hlevel (codes, region.the_row.coded) };

    ghost view = { λ c. record { name = c.name; variables = c.variables; regions = c.regions } };

    ghost invariant = { λ c. IsChart features.Core (record {
      name = c.name;
      variables = c.variables;
      regions = c.regions;
    }) };
}

impl CoreChart {
    /// The core chart of these parts, which keep its rules and limits.
    pub fn known(name: Name, variables: Items<Variable>, regions: Items<Region>) -> CoreChart
        requires { IsChart features.Core (record { name = name; variables = variables; regions = regions }) }
        ensures { result ≡ record { name = name; variables = variables; regions = regions } }
    {
        CoreChart {
            name,
            variables,
            regions,
        }
    }

    /// Its name.
    pub fn name(&self) -> Name
        ensures value { result ≡ self.now.name }
        ensures rules { IsChart features.Core self.now }
    {
        self.name
    }

    /// Its variables, in order of their numbers.
    pub fn variables(&self) -> &[Variable]
        ensures value { result.now ≡ self.now.variables }
        ensures rules { IsChart features.Core self.now }
    {
        self.variables.as_slice()
    }

    /// Its regions, in the order of the text.
    pub fn regions(&self) -> &[Region]
        ensures value { result.now ≡ self.now.regions }
        ensures rules { IsChart features.Core self.now }
    {
        self.regions.as_slice()
    }
}
