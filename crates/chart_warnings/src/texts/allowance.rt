//! Which warnings the line of a place allows.

ghost use Rattle.std.specs.Prelude.{◌≡◌, ◌&&◌, codes, drop, nat_eq};
ghost use Rattle.std.specs.List.{starts_with};
ghost use Rattle.chart_warnings.specs.Allowance.{allows, code_text, has, is_allowed};

use crate::Warning;
use crate::texts::lines::line_of;

/// What a comment begins with that allows the warnings whose codes stand behind it on its line.
const ALLOWS: &str = "// sct: allow";

/// The code of a warning.
pub(crate) fn code_text(warning: Warning) -> &'static str
    ensures { result.now ≡ code_text warning }
{
    match warning {
        Warning::StaysOn { .. } => "W01",
        Warning::Forestalled { .. } => "W02",
        Warning::Unreached { .. } => "W03",
        Warning::NeverRead { .. } => "W04",
        Warning::NeverSet { .. } => "W05",
        Warning::NeverAsked { .. } => "W06",
        Warning::NeverEnded { .. } => "W07",
        Warning::NeverLeft { .. } => "W08",
    }
}

/// Whether the line of this place allows a warning.
pub(crate) fn is_allowed(text: &str, at: usize, warning: Warning) -> bool
    ensures { result ≡ is_allowed text.now at warning }
{
    allows(code_text(warning).as_bytes(), line_of(text, at))
}

// Whether a line has the comment, and this code behind it.
#[tactic(auto, using(crate::proofs::Standing::allows_more))]
fn allows(code: &[u8], line: &[u8]) -> bool
    ensures { result ≡ allows code.now line.now }
{
    for at in 0..line.len() {
        if allows_at(code, line, at) {
            return true;
        }
    }
    false
}

// Whether the comment stands at a place of a line, and this code behind it.
fn allows_at(code: &[u8], line: &[u8], at: usize) -> bool
    ensures { result ≡ (starts_with nat_eq (drop at line.now) (codes "// sct: allow")
        && has code.now (drop at line.now)) }
{
    match line.get(at..) {
        Some(rest) => rest.starts_with(ALLOWS.as_bytes()) && has(code, rest),
        None => false,
    }
}

// Whether these bytes stand somewhere in a line.
#[tactic(auto, using(crate::proofs::Standing::has_more))]
fn has(piece: &[u8], line: &[u8]) -> bool
    ensures { result ≡ has piece.now line.now }
{
    for at in 0..line.len() {
        if begins_at(line, at, piece) {
            return true;
        }
    }
    false
}

// Whether these bytes stand at a place of a line.
fn begins_at(line: &[u8], at: usize, piece: &[u8]) -> bool
    ensures { result ≡ starts_with nat_eq (drop at line.now) piece.now }
{
    match line.get(at..) {
        Some(rest) => rest.starts_with(piece),
        None => piece.is_empty(),
    }
}
