//! The text of a chart.

ghost use Rattle.std.specs.Prelude.{◌≡◌, ◌++◌, IfOk, string_bytes};
ghost use Rattle.chart_texts.specs.Layout.{chart_head, chart_text, declaration_text, declarations_text};

use crate::printer::lines::{put_head, put_line};
use crate::printer::regions::put_regions;
use core_charts::Chart;
use sc_graph::Variable;
use scl_printer::{kind_prefix, role_prefix};
use std::alloc::{AllocError, Global};

fn declaration_text(alloc: Global, variable: &Variable) -> Result<String, AllocError>
    ensures { IfOk result (λ text. string_bytes text ≡ declaration_text variable.now) }
{
    let role = role_prefix(variable.role);
    let kind = kind_prefix(variable.kind);
    let name = variable.name;
    format!(in alloc; "{role}{kind}{name};")
}

// Puts the lines of declarations behind a text.
fn put_declarations(
    alloc: Global,
    text: &mut String,
    variables: &[Variable],
    margin: &str,
) -> Result<(), AllocError>
    ensures { IfOk result (λ _. string_bytes text.new
        ≡ string_bytes text.old ++ declarations_text variables.now margin.now) }
{
    for variable in variables {
        let line = declaration_text(alloc, variable)?;
        put_line(text, line.as_str(), margin)?;
    }
    Ok(())
}

fn chart_head(alloc: Global, chart: &Chart) -> Result<String, AllocError>
    ensures { IfOk result (λ text. string_bytes text ≡ chart_head chart.now.name) }
{
    let name = chart.name();
    format!(in alloc; "chart {name}")
}

// Puts a chart behind a text.
fn put_chart(alloc: Global, text: &mut String, chart: &Chart) -> Result<(), AllocError>
    ensures { IfOk result (λ _. string_bytes text.new ≡ string_bytes text.old ++ chart_text chart.now) }
{
    let head = chart_head(alloc, chart)?;
    let words = head.as_str();
    let declared = chart.variables();
    let inside = chart.regions();
    put_head(text, words, "")?;
    put_declarations(alloc, text, declared, "  ")?;
    put_regions(alloc, text, declared, inside, "  ")?;
    put_line(text, "}", "")?;
    Ok(())
}

/// The text of a chart: a declaration or a transition a line, a region and a state too, with what is in them on lines
/// of their own, two spaces more for each level. Err: memory was refused.
pub fn chart_text(alloc: Global, chart: &Chart) -> Result<String, AllocError>
    ensures { IfOk result (λ text. string_bytes text ≡ chart_text chart.now) }
{
    let mut text = String::new(alloc);
    put_chart(alloc, &mut text, chart)?;
    Ok(text)
}
