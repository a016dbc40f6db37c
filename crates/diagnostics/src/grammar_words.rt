//! A place where a text cannot go on, in words.

use crate::could::Could;
use crate::could_follow::Grammar;
use crate::expected::put_expected;
use crate::extended_words::{misuse_at, near_own_word};
use crate::found::{found, one_at, stands_at};
use crate::fronts::{front_of, last_token};
use crate::near_names::difference;
use crate::page::Page;
use crate::spellings::{for_sign, for_word};
use crate::told::Told;
use crate::unclosed::last_open;
use crate::words::Words;
use node_sources::{LineColumn, line_column_of, name_in};
use sc_text::{Sign, TokenKind, Word};
use std::alloc::Global;

// How many bytes may stand before a place of which is told what could stand there: they are read some fifty times.
const LONGEST: usize = 262_144;

const TRANSITIONS: &str =
    "a transition begins with `go`, and that of a superstate with `strong`, `weak` or `join`";

const BEGINNINGS: &str =
    "a text begins with `chart`, with `extended chart` or with `scl`, and a name";

// Where no token stands before.
const FIRST: Told = Told {
    cause: "found @, expected `chart`, `extended chart` or `scl`",
    cure: "a text begins with `chart`, with `extended chart` or with `scl`, and a name; the words of the language are in small letters",
};

// Where more stands before than is read.
const FAR: Told = Told {
    cause: "the text cannot go on with @",
    cure: "look at what stands before it",
};

// What helps.
#[derive(Clone, Copy)]
enum Cure {
    Said(&'static str),
    // `@` stands for this word of the language.
    OfWord(&'static str, &'static str),
    // To close what is opened there.
    Closing(LineColumn),
}

// Adds what helps.
fn put_cure(page: &mut Page, cure: Cure) {
    match cure {
        Cure::Said(words) => page.put(words),
        Cure::OfWord(words, word) => page.put_filled(words, word),
        Cure::Closing(line_column) => {
            page.put("line ");
            page.put_number(line_column.line);
            page.put(" opens a brace or parenthesis, in column ");
            page.put_number(line_column.column);
            page.put(", that is not closed");
        }
    }
}

// What helps where the text ends too early.
fn cure_at_end(alloc: Global, grammar: Grammar, text: &str) -> Cure {
    match last_open(alloc, grammar.tokens(), text) {
        Some(at) => Cure::Closing(line_column_of(text, at)),
        None => Cure::Said(BEGINNINGS),
    }
}

/// A place of a text at which it cannot go on, and the grammar by which it is read.
#[derive(Clone, Copy)]
struct Stop<'a> {
    grammar: Grammar,
    text: &'a str,
    at: usize,
}

impl<'a> Stop<'a> {
    // Whether this piece stands there.
    fn has(&self, piece: &str) -> bool {
        stands_at(self.text, self.at, piece)
    }

    // Whether one of these pieces does.
    fn has_one(&self, pieces: &[&'static str]) -> bool {
        one_at(self.text, self.at, pieces).is_some()
    }
}

// What helps where a value stands behind a declaration that has none.
fn cure_of_value(grammar: Grammar) -> &'static str {
    match grammar {
        Grammar::Chart => {
            "a variable begins with false or 0: give it another value in the first transition, or begin the text with `extended chart`, where it may stand here"
        }
        Grammar::ExtendedChart => {
            "a value stands behind a kind and a name, as in `const int N = 3;`; a signal has none"
        }
        Grammar::Scl => {
            "a variable begins with false or 0: give it another value in the first step"
        }
    }
}

// What helps where a sign stands that has its place elsewhere.
fn cure_of_own_sign(stop: Stop<'_>, could: &Could) -> Option<&'static str> {
    if stop.has("==") && could.has_sign(Sign::Becomes) {
        return Some("a value is given by `=`, and `==` compares two");
    }
    if stop.has("->") && could.has_word(Word::Go) {
        return Some(TRANSITIONS);
    }
    if stop.has(";") && could.has_sign(Sign::Arrow) {
        return Some("a transition leads to a state by `->`, and its effects stand apart by `,`");
    }
    if is_comparison(stop) && could.goes_on_expression() {
        return Some("two comparisons stand apart by `and` or `or`: write `1 < x and x < 5`");
    }
    if stop.has("=") && could.goes_on_expression() {
        return Some("two values are compared by `==`, and `=` gives a value");
    }
    if stop.has("=") && could.has_sign(Sign::Semicolon) {
        return Some(cure_of_value(stop.grammar));
    }
    None
}

// Whether two values are compared by what stands there.
fn is_comparison(stop: Stop<'_>) -> bool {
    stop.has_one(&["==", "!=", "<=", ">=", "<", ">"])
}

// Whether a variable is combined with a value by what stands there, as extended charts do.
fn is_combination(stop: Stop<'_>) -> bool {
    stop.grammar == Grammar::ExtendedChart && stop.has_one(&["+=", "-=", "*="])
}

// What helps where a sign stands that other languages have, or that has its place elsewhere.
fn cure_of_sign(stop: Stop<'_>, could: &Could) -> Option<&'static str> {
    if stop.has("=>") {
        return for_sign(stop.text, stop.at);
    }
    match cure_of_own_sign(stop, could) {
        Some(written) => Some(written),
        None if is_comparison(stop) || is_combination(stop) => None,
        None => for_sign(stop.text, stop.at),
    }
}

// Whether charts have no such word, or none like it.
fn is_foreign(grammar: Grammar, word: Word) -> bool {
    grammar != Grammar::Scl && (word == Word::Else || word == Word::Goto)
}

// What helps where a reserved word stands.
fn cure_of_reserved(word: Word, before: &TokenKind, could: &Could) -> Option<Cure> {
    if matches!(before, TokenKind::Word(Word::State))
        && (word == Word::Initial || word == Word::Final)
    {
        return Some(Cure::OfWord("write `@ state`", word.text()));
    }
    if (word == Word::Bool || word == Word::Int) && could.has_word(Word::Input) {
        return Some(Cure::Said(
            "a variable is declared by `input`, `output` or `local` before its kind",
        ));
    }
    if could.has_word(Word::Go)
        && (word == Word::If || word == Word::Do || word == Word::Immediate)
    {
        return Some(Cure::Said(TRANSITIONS));
    }
    if word == Word::Do && could.has_name() && matches!(before, TokenKind::Sign(Sign::Comma)) {
        return Some(Cure::Said("`do` stands once, before the first effect"));
    }
    if could.has_name() && !could.begins_expression() {
        return Some(Cure::OfWord(
            "`@` is a word of the language: take another name",
            word.text(),
        ));
    }
    None
}

// The word that could stand there and is spelled nearly so.
fn near_word(could: &Could, name: &str) -> Option<&'static str> {
    for word in could.words() {
        let text = word.text();
        if text.len() > 2 && difference(text.as_bytes(), name.as_bytes()) <= 2 {
            return Some(text);
        }
    }
    near_own_word(could, name)
}

// What helps where a name stands.
fn cure_of_name(grammar: Grammar, name: &str, could: &Could) -> Option<Cure> {
    if let Some(written) = for_word(grammar, name) {
        return Some(Cure::Said(written));
    }
    match near_word(could, name) {
        Some(text) => Some(Cure::OfWord(
            "did you mean `@`? The words of the language are in small letters",
            text,
        )),
        None => cure_of_own_name(could),
    }
}

// What helps where a name stands that is no word.
fn cure_of_own_name(could: &Could) -> Option<Cure> {
    if could.has_own_word("emit") {
        Some(Cure::Said(
            "a signal is emitted by `emit s`, and a variable is given a value by `x = ..`",
        ))
    } else if could.has_own_word("shallow") {
        Some(Cure::Said("a state is entered by its history by `-> shallow history S`"))
    } else if could.has_word(Word::If) && !could.has_name() {
        Some(Cure::Said("a condition stands behind `if`"))
    } else {
        None
    }
}

// What helps where nothing else is known.
fn cure_at_least(could: &Could) -> &'static str {
    if could.has_sign(Sign::Semicolon) {
        "a `;` may be missing before it"
    } else if could.begins_expression() {
        "an operator wants a value on each side"
    } else {
        ""
    }
}

// What helps where a word or a name stands, or nothing of either.
fn cure_of_word(grammar: Grammar, before: &TokenKind, name: &str, could: &Could) -> Option<Cure> {
    match Word::of(name.as_bytes()) {
        Some(word) if !is_foreign(grammar, word) => { cure_of_reserved(word, before, could) }
        None if name.is_empty() => None,
        _ => cure_of_name(grammar, name, could),
    }
}

// What helps where a text stops behind this token, and something else could stand.
fn cure_of(alloc: Global, stop: Stop<'_>, before: &TokenKind, could: &Could) -> Cure {
    if stop.at >= stop.text.len() {
        return cure_at_end(alloc, stop.grammar, stop.text);
    }
    if let Some(written) = cure_of_sign(stop, could) {
        return Cure::Said(written);
    }
    match cure_of_word(stop.grammar, before, name_in(stop.text, stop.at), could) {
        Some(cure) => cure,
        None if could.has_sign(Sign::CloseParenthesis) => {
            cure_at_end(alloc, stop.grammar, front_of(stop.text, stop.at))
        }
        None => Cure::Said(cure_at_least(could)),
    }
}

// Says what stands where something else could, and what.
fn put_stopped(
    alloc: Global,
    words: &mut Words,
    stop: Stop<'_>,
    before: &TokenKind,
    could: &Could,
) {
    if let Some(misused) = misuse_at(stop.text, stop.at, before, could) {
        words.tell(misused, "");
        return;
    }
    put_expected(alloc, &mut words.cause, found(stop.text, stop.at), could);
    put_cure(&mut words.cure, cure_of(alloc, stop, before, could));
}

// Says what stands behind this token, where something else could.
fn put_stop_behind(alloc: Global, words: &mut Words, stop: Stop<'_>, before: &TokenKind) {
    match Could::of(alloc, stop.grammar, front_of(stop.text, stop.at), before) {
        Ok(could) => {
            put_stopped(alloc, words, stop, before, &could);
            drop(could);
        }
        Err(_) => words.cause.refuse(),
    }
}

/// Says of a byte of a text where it cannot go on what was found, what could stand there, and what helps.
pub(crate) fn put_stop(alloc: Global, words: &mut Words, text: &str, at: usize) {
    if at > LONGEST {
        words.tell_found(FAR, found(text, at));
        return;
    }
    let grammar = Grammar::of(text);
    match last_token(alloc, grammar.tokens(), front_of(text, at)) {
        Some(before) => put_stop_behind(alloc, words, Stop { grammar, text, at }, &before),
        None => words.tell_found(FIRST, found(text, at)),
    }
}
