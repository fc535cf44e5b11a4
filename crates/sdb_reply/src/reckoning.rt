// How long a body will be, so that it is written into memory that is taken once.
use crate::outcome::Outcome;
use sdb_action::Action;
use sdb_base::Text;
use sdb_pairs::{ItemOut, Pair};

// The bytes of a body without a result, beside the name of its action, which stands in it twice.
const BODY: usize = 221;

// The bytes of the tags of a result, beside the same name, which stands in them twice more.
const RESULT: usize = 17;

// The bytes of the tags of a pair, of an item, of a domain's name and of a token.
const PAIR: usize = 51;

const ITEM: usize = 26;

const NAME: usize = 25;

const TOKEN: usize = 23;

// About the bytes of a refusal, and of a result that is numbers.
const NUMBERS: usize = 512;

// The bytes of the body where no text in it needs an escape and it used less than an hour; of numbers and of a
// refusal somewhat more.
pub(crate) fn foreseen<'a>(outcome: &Outcome<'a>) -> usize {
    match outcome {
        Outcome::Done(action) => named(*action, 2).saturating_add(BODY),
        Outcome::Domains(names, token) => in_result(
            Action::ListDomains,
            names_size(names.as_slice()).saturating_add(token_size(token)),
        ),
        Outcome::Metadata(_, _) => in_result(Action::DomainMetadata, NUMBERS),
        Outcome::Pairs(pairs) => in_result(Action::GetAttributes, pairs_size(pairs.as_slice())),
        Outcome::Items(shown, token) => in_result(
            Action::Select,
            items_size(shown.as_slice()).saturating_add(token_size(token)),
        ),
        Outcome::Count(_, token) => {
            in_result(Action::Select, token_size(token).saturating_add(NUMBERS))
        }
        Outcome::Refused(_) => NUMBERS,
    }
}

// The bytes of a body whose result has so many between its tags.
fn in_result(action: Action, inside: usize) -> usize {
    named(action, 4)
        .saturating_add(BODY + RESULT)
        .saturating_add(inside)
}

// The bytes of an action's name, so many times.
fn named(action: Action, times: usize) -> usize {
    action.name().len().saturating_mul(times)
}

fn token_size(token: &Option<Text>) -> usize {
    match token {
        Some(text) => text.as_str().len().saturating_add(TOKEN),
        None => 0,
    }
}

fn names_size(names: &[Text]) -> usize {
    let mut size: usize = 0;
    for name in names {
        size = size
            .saturating_add(name.as_str().len())
            .saturating_add(NAME);
    }
    size
}

fn pairs_size(pairs: &[&Pair]) -> usize {
    let mut size: usize = 0;
    for pair in pairs {
        let texts = pair
            .name
            .as_str()
            .len()
            .saturating_add(pair.value.as_str().len());
        size = size.saturating_add(texts).saturating_add(PAIR);
    }
    size
}

fn items_size<'a>(shown: &[ItemOut<'a>]) -> usize {
    let mut size: usize = 0;
    for item in shown {
        let pairs = pairs_size(item.pairs().as_slice());
        let name = item.name().as_str().len().saturating_add(ITEM);
        size = size.saturating_add(pairs).saturating_add(name);
    }
    size
}
