// What a tree that a text spells is refused for.
ghost use Rattle.std.specs.Prelude.{◌≡◌, fold};
ghost use Rattle.std.specs.List.{flat_map};
ghost use Rattle.sdb_parse.specs.Judged.{is_absence, is_long, is_on, judged, names_of, predicates, predicates_of, verdict};
ghost use Rattle.sdb_parse.specs.Tally.{attr_of, by_attr, counted, is_attr, key_attr, nothing, one_more};

use crate::expr::{Expr, Operand};
use crate::select::{Output, Select, Sort, SortKey};
use crate::test::Test;
use sdb_tables::Refusal;

const MOST_NAMES: usize = 256;

const MOST_PREDICATES: u8 = 20;

const MOST_CONSTANTS: usize = 20;

// What was seen of the predicates of a tree, beside the name of an attribute.
#[derive(Clone, Copy, Debug)]
pub struct Tally {
    // How many there are: 21 stands for more than 20.
    predicates: u8,
    // Some `in` has too many constants.
    is_long: bool,
    // The attribute stands in a predicate that isn't `is null`.
    stands: bool,
}

// The first refusal of a tree, if any.
pub(crate) fn judge(select: &Select) -> Option<Refusal>
    ensures { result ≡ judged select.now }
{
    let names = names_of(&select.output);
    let tally = survey_of(&select.cond, attr_of(&select.sort));
    let sorts = !by_attr(&select.sort) | tally.stands;
    verdict(
        names > MOST_NAMES,
        tally.predicates > MOST_PREDICATES,
        tally.is_long,
        sorts,
    )
}

// The first refusal by what is true of a tree.
fn verdict(many_names: bool, many_predicates: bool, is_long: bool, sorts: bool) -> Option<Refusal>
    ensures { result ≡ verdict many_names many_predicates is_long sorts }
{
    if many_names {
        return Some(Refusal::TooManyRequestedAttributes);
    }
    if many_predicates {
        return Some(Refusal::InvalidNumberPredicates);
    }
    if is_long {
        return Some(Refusal::InvalidNumberValueTests);
    }
    if sorts {
        None
    } else {
        Some(Refusal::InvalidSortExpression)
    }
}

fn names_of(output: &Output) -> usize
    ensures { result ≡ names_of output.now }
{
    match output {
        Output::Listed(names) => names.len(),
        Output::All | Output::Names | Output::Count => 0,
    }
}

// The attribute that items are ordered by; empty where there is none.
fn attr_of(sort: &Option<Sort>) -> &str
    ensures { result.now ≡ attr_of sort.now }
{
    match sort {
        None => "",
        Some(sort) => key_attr(&sort.by),
    }
}

fn key_attr(key: &SortKey) -> &str
    ensures { result.now ≡ key_attr key.now }
{
    match key {
        SortKey::ItemName => "",
        SortKey::Attr(attr) => attr.as_str(),
    }
}

fn by_attr(sort: &Option<Sort>) -> bool
    ensures { result ≡ by_attr sort.now }
{
    match sort {
        None => false,
        Some(sort) => is_attr(&sort.by),
    }
}

fn is_attr(key: &SortKey) -> bool
    ensures { result ≡ is_attr key.now }
{
    match key {
        SortKey::ItemName => false,
        SortKey::Attr(_) => true,
    }
}

fn survey_of(cond: &Option<Expr>, attr: &str) -> Tally
    ensures { result ≡ fold (counted attr.now) nothing (predicates_of cond.now) }
{
    let nothing = Tally {
        predicates: 0,
        is_long: false,
        stands: false,
    };
    match cond {
        None => nothing,
        Some(cond) => survey(cond, attr, nothing),
    }
}

#[cycle(survey)]
#[tactic(auto, using(crate::proofs::JudgedLemmas::predicates_laws))]
fn survey(expr: &Expr, attr: &str, so_far: Tally) -> Tally
    ensures { result ≡ fold (counted attr.now) so_far (predicates expr.now) }
{
    match expr {
        Expr::Pred(operand, test) => counted(attr, so_far, operand, test),
        Expr::Not(negated) => survey(negated.get(), attr, so_far),
        Expr::And(members) => survey_all(members.as_slice(), attr, so_far),
        Expr::Or(members) => survey_all(members.as_slice(), attr, so_far),
        Expr::Inter(members) => survey_all(members.as_slice(), attr, so_far),
    }
}

#[cycle(survey)]
fn survey_all(members: &[Expr], attr: &str, so_far: Tally) -> Tally
    ensures { result ≡ fold (counted attr.now) so_far (flat_map predicates members.now) }
{
    let mut seen = so_far;
    for member in members {
        seen = survey(member, attr, seen);
    }
    seen
}

fn counted(attr: &str, so_far: Tally, operand: &Operand, test: &Test) -> Tally
    ensures { result ≡ counted attr.now so_far (operand.now, test.now) }
{
    Tally {
        predicates: one_more(so_far.predicates),
        is_long: so_far.is_long || is_long(test),
        stands: so_far.stands || is_on(attr, operand) && !is_absence(test),
    }
}

fn one_more(predicates: u8) -> u8
    ensures { result ≡ one_more predicates }
{
    if predicates <= MOST_PREDICATES {
        predicates + 1
    } else {
        predicates
    }
}

fn is_long(test: &Test) -> bool
    ensures { result ≡ is_long test.now }
{
    match test {
        Test::OneOf(texts) => texts.len() > MOST_CONSTANTS,
        _ => false,
    }
}

fn is_on(name: &str, operand: &Operand) -> bool
    ensures { result ≡ is_on name.now operand.now }
{
    match operand {
        Operand::Attr(attr) => attr.as_str() == name,
        Operand::Every(attr) => attr.as_str() == name,
        Operand::ItemName => false,
    }
}

fn is_absence(test: &Test) -> bool
    ensures { result ≡ is_absence test.now }
{
    matches!(test, Test::IsNull)
}
