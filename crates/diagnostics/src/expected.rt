//! What could stand where a text goes wrong, in words.

use crate::could::Could;
use crate::found::Piece;
use crate::page::Page;
use sc_text::{Sign, Word};
use sqlite_items::Items;
use std::alloc::Global;

// A thing that could stand there: a word or a sign of the language, or what a kind of them is called.
#[derive(Clone, Copy)]
enum Thing {
    Spelled(&'static str),
    Called(&'static str),
}

// Things in their order. Where memory was refused, some are missing.
#[derive(Drop)]
struct Things {
    list: Items<Thing>,
    is_refused: bool,
}

impl Things {
    fn add(&mut self, thing: Thing) {
        if self.list.push(thing).is_err() {
            self.is_refused = true;
        }
    }
}

// Whether a word is told by what it is part of.
fn is_told_of_word(could: &Could, word: Word) -> bool {
    match word {
        Word::True | Word::False | Word::Not | Word::Min | Word::Max => could.begins_expression(),
        Word::And | Word::Or => could.goes_on_expression(),
        _ => false,
    }
}

// Whether a sign is told by what it is part of.
fn is_told_of_sign(could: &Could, sign: Sign) -> bool {
    match sign {
        Sign::OpenParenthesis => could.begins_expression(),
        Sign::Minus => could.begins_expression() || could.goes_on_expression(),
        Sign::Plus
        | Sign::Star
        | Sign::Slash
        | Sign::Percent
        | Sign::Equal
        | Sign::NotEqual
        | Sign::Less
        | Sign::LessOrEqual
        | Sign::Greater
        | Sign::GreaterOrEqual => could.goes_on_expression(),
        _ => false,
    }
}

// Adds what could stand there by its kind.
fn add_called(could: &Could, things: &mut Things) {
    if could.begins_expression() {
        things.add(Thing::Called("an expression"));
    } else {
        if could.has_name() {
            things.add(Thing::Called("a name"));
        }
        if could.has_number() {
            things.add(Thing::Called("a number"));
        }
    }
    if could.goes_on_expression() {
        things.add(Thing::Called("an operator"));
    }
}

// A sign as it is told: an operator that combines with what stands behind it.
fn sign_text(could: &Could, sign: Sign) -> &'static str {
    match sign {
        Sign::Plus if could.combines() => "+=",
        Sign::Minus if could.combines() => "-=",
        Sign::Star if could.combines() => "*=",
        _ => sign.text(),
    }
}

// Adds the words that could stand there.
fn add_words(could: &Could, things: &mut Things) {
    for word in could.own_words() {
        things.add(Thing::Spelled(word));
    }
    for word in could.words() {
        if !is_told_of_word(could, *word) && !could.is_barred(*word) {
            things.add(Thing::Spelled(word.text()));
        }
    }
}

// Adds the signs that could stand there.
fn add_signs(could: &Could, things: &mut Things) {
    for sign in could.signs() {
        if !is_told_of_sign(could, *sign) {
            things.add(Thing::Spelled(sign_text(could, *sign)));
        }
    }
}

// What stands before one of several things.
fn joint(place: usize, count: usize) -> &'static str {
    if place == 0 {
        ""
    } else if place.saturating_add(1) == count {
        " or "
    } else {
        ", "
    }
}

// Adds a thing.
fn put_thing(page: &mut Page, thing: Thing) {
    match thing {
        Thing::Called(name) => page.put(name),
        Thing::Spelled(piece) => page.put_filled("`@`", piece),
    }
}

// Adds that this was found where these things could stand.
fn put_found(page: &mut Page, found: Piece<'_>, things: &[Thing]) {
    if things.is_empty() {
        found.put_into(page, "found @ behind the end of the program");
        return;
    }
    found.put_into(page, "found @, expected ");
    for (place, thing) in things.iter().enumerate() {
        page.put(joint(place, things.len()));
        put_thing(page, *thing);
    }
}

/// Adds what was found, and what could stand there: "a name", "`go`, `strong` or `}`".
pub(crate) fn put_expected(alloc: Global, page: &mut Page, found: Piece<'_>, could: &Could) {
    let mut things = Things {
        list: Items::new(alloc),
        is_refused: false,
    };
    add_called(could, &mut things);
    add_words(could, &mut things);
    add_signs(could, &mut things);
    put_found(page, found, things.list.as_slice());
    if things.is_refused {
        page.refuse();
    }
    drop(things);
}
