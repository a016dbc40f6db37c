//! Reading what stands among the variables of an extended chart.

ghost use Rattle.std.specs.Prelude.{◌≡◌, ◌++◌, MatchResult, OnOk, map};
ghost use Rattle.grammar.specs.Read.{read, starts};
ghost use Rattle.sc_text.specs.Expression.{text_tokens, expression};
ghost use Rattle.sc_text.specs.Reading.{Stops};
ghost use Rattle.chart_reader.specs.Phrase.{Gives};
ghost use Rattle.extended_reader.specs.Draft.{signal_body, plain_item, worded_item};
ghost use Rattle.extended_reader.specs.ExtendedText.{item_value, last_value, typed, signalled};
ghost use Rattle.extended_reader.specs.ExtendedText.{plain_body, plain, worded_body, worded, item};

use crate::text_drafts::draft::{DraftItem, ItemBody};
use chart_reader::text_parts::{
    Ahead, Part, RowPart, declared_kind, declared_role, last_name, name, skip_sign, value,
};
use sc_graph::Role;
use sc_text::ahead::sign_follows;
use sc_text::{
    Declaration, Named, ReadFault, Sign, TextExpression, Token, name_follows, role_follows,
};
use sc_values::Kind;
use sqlite_items::Items;
use std::alloc::{AllocError, Global};

/// What stands among the variables.
pub(crate) struct ChartItems;

impl Part for ChartItems {
    type Read = DraftItem;

    ghost phrase = { item (expression 0) };

    fn take(alloc: Global, ahead: &mut Ahead, end: usize) -> Result<DraftItem, ReadFault> {
        if role_follows(ahead.tokens) {
            return plain(alloc, ahead, end);
        }
        worded(alloc, ahead, end)
    }
}

impl RowPart for ChartItems {
    #[tactic(auto, unfolding(crate::specs::ExtendedText::item, crate::specs::ExtendedText::plain, crate::specs::ExtendedText::worded))]
    fn follows(tokens: &[Token]) -> bool {
        role_follows(tokens) || name_follows(tokens)
    }
}

// A variable, which may be a signal.
#[tactic(auto, using(crate::proofs::ItemParts::plain_gives, chart_reader::proofs::Parts::made_stops, chart_reader::proofs::Parts::seq_stops_first, chart_reader::proofs::Parts::seq_stops_second), unfolding(crate::specs::ExtendedText::plain))]
fn plain(alloc: Global, ahead: &mut Ahead, end: usize) -> Result<DraftItem, ReadFault>
    ensures { MatchResult result
        (λ x. Gives (read (plain (expression 0)) ahead.old.tokens.now) x ahead.new.tokens.now)
        (λ fault. Stops end (read (plain (expression 0)) ahead.old.tokens.now) fault) }
{
    let role = declared_role(ahead, end)?;
    let body = plain_body(alloc, ahead, end)?;
    Ok(plain_item(role, body))
}

fn plain_item(role: Role, body: ItemBody) -> DraftItem
    ensures { result ≡ plain_item role body }
{
    let ItemBody {
        kind,
        signal,
        named,
        value,
    } = body;
    let declared = Declaration { role, kind, named };
    DraftItem {
        declared,
        word: None,
        signal,
        value,
    }
}

fn plain_body(alloc: Global, ahead: &mut Ahead, end: usize) -> Result<ItemBody, ReadFault>
    ensures { MatchResult result
        (λ x. Gives (read (plain_body (expression 0)) ahead.old.tokens.now) x ahead.new.tokens.now)
        (λ fault. Stops end (read (plain_body (expression 0)) ahead.old.tokens.now) fault) }
{
    if name_follows(ahead.tokens) {
        return signalled(ahead, end);
    }
    typed(alloc, ahead, end)
}

// What stands behind a word that charts don't have, or a local signal.
#[tactic(auto, using(crate::proofs::ItemParts::worded_gives, chart_reader::proofs::Parts::made_stops, chart_reader::proofs::Parts::seq_stops_first, chart_reader::proofs::Parts::seq_stops_second), unfolding(crate::specs::ExtendedText::worded))]
fn worded(alloc: Global, ahead: &mut Ahead, end: usize) -> Result<DraftItem, ReadFault>
    ensures { MatchResult result
        (λ x. Gives (read (worded (expression 0)) ahead.old.tokens.now) x ahead.new.tokens.now)
        (λ fault. Stops end (read (worded (expression 0)) ahead.old.tokens.now) fault) }
{
    let word = name(ahead, end)?;
    let body = worded_body(alloc, ahead, end)?;
    Ok(worded_item(word, body))
}

fn worded_item(word: Named, body: ItemBody) -> DraftItem
    ensures { result ≡ worded_item word body }
{
    let ItemBody {
        kind,
        signal,
        named,
        value,
    } = body;
    match signal {
        None => DraftItem {
            declared: Declaration {
                role: Role::Input,
                kind,
                named,
            },
            word: Some(word),
            signal: None,
            value,
        },
        Some(_) => DraftItem {
            declared: Declaration {
                role: Role::Local,
                kind,
                named,
            },
            word: None,
            signal: Some(word),
            value,
        },
    }
}

#[tactic(auto, using(crate::proofs::ItemParts::bare_signal_fails))]
fn worded_body(alloc: Global, ahead: &mut Ahead, end: usize) -> Result<ItemBody, ReadFault>
    ensures { MatchResult result
        (λ x. Gives (read (worded_body (expression 0)) ahead.old.tokens.now) x ahead.new.tokens.now)
        (λ fault. Stops end (read (worded_body (expression 0)) ahead.old.tokens.now) fault) }
{
    if name_follows(ahead.tokens) {
        let named = last_name(ahead, end)?;
        return Ok(signal_body(&named, &named));
    }
    typed(alloc, ahead, end)
}

// A signal behind its word.
#[tactic(auto, using(crate::proofs::ItemParts::signalled_gives, chart_reader::proofs::Parts::made_stops, chart_reader::proofs::Parts::seq_stops_first, chart_reader::proofs::Parts::seq_stops_second), unfolding(crate::specs::ExtendedText::signalled))]
fn signalled(ahead: &mut Ahead, end: usize) -> Result<ItemBody, ReadFault>
    ensures { MatchResult result
        (λ x. Gives (read signalled ahead.old.tokens.now) x ahead.new.tokens.now)
        (λ fault. Stops end (read signalled ahead.old.tokens.now) fault) }
{
    let word = name(ahead, end)?;
    let named = last_name(ahead, end)?;
    Ok(signal_body(&word, &named))
}

// A signal behind this word.
fn signal_body(word: &Named, named: &Named) -> ItemBody
    ensures { result ≡ signal_body word.now named.now }
{
    ItemBody {
        kind: Kind::Bool,
        signal: Some(*word),
        named: *named,
        value: None,
    }
}

#[tactic(auto, using(crate::proofs::ItemParts::typed_gives, chart_reader::proofs::Parts::made_stops, chart_reader::proofs::Parts::seq_stops_first, chart_reader::proofs::Parts::seq_stops_second), unfolding(crate::specs::ExtendedText::typed))]
fn typed(alloc: Global, ahead: &mut Ahead, end: usize) -> Result<ItemBody, ReadFault>
    ensures { MatchResult result
        (λ x. Gives (read (typed (expression 0)) ahead.old.tokens.now) x ahead.new.tokens.now)
        (λ fault. Stops end (read (typed (expression 0)) ahead.old.tokens.now) fault) }
{
    let kind = declared_kind(ahead, end)?;
    let named = name(ahead, end)?;
    let value = last_value(alloc, ahead, end)?;
    Ok(ItemBody {
        kind,
        signal: None,
        named,
        value,
    })
}

fn item_value(
    alloc: Global,
    ahead: &mut Ahead,
    end: usize,
) -> Result<Option<TextExpression>, ReadFault>
    ensures { MatchResult result
        (λ x. Gives (read (item_value (expression 0)) ahead.old.tokens.now) x ahead.new.tokens.now)
        (λ fault. Stops end (read (item_value (expression 0)) ahead.old.tokens.now) fault) }
{
    if !sign_follows(ahead.tokens, Sign::Becomes) {
        return Ok(None);
    }
    let value = value(alloc, ahead, end)?;
    Ok(Some(value))
}

// The value, where there is one, and the semicolon that ends the item.
#[tactic(auto, using(chart_reader::proofs::Parts::before_stops_first, chart_reader::proofs::Parts::before_stops_second, chart_reader::proofs::Parts::before_gives), unfolding(crate::specs::ExtendedText::last_value))]
fn last_value(
    alloc: Global,
    ahead: &mut Ahead,
    end: usize,
) -> Result<Option<TextExpression>, ReadFault>
    ensures { MatchResult result
        (λ x. Gives (read (last_value (expression 0)) ahead.old.tokens.now) x ahead.new.tokens.now)
        (λ fault. Stops end (read (last_value (expression 0)) ahead.old.tokens.now) fault) }
{
    let value = item_value(alloc, ahead, end)?;
    match skip_sign(ahead, end, Sign::Semicolon) {
        Ok(()) => Ok(value),
        Err(fault) => {
            drop(value);
            Err(fault)
        }
    }
}

/// Puts what these items are declared as behind others. Err: memory was refused.
pub(crate) fn put_declarations(
    items: &[DraftItem],
    made: &mut Items<Declaration>,
) -> Result<(), AllocError>
    ensures { OnOk result (made.new ≡ made.old ++ map (λ x. x.declared) items.now) }
{
    for item in items {
        made.push(item.declared)?;
    }
    Ok(())
}
