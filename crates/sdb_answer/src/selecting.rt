// What a Select answers.
ghost use Rattle.std.specs.Prelude.{◌≡◌, ◌+◌, ◌≤◌, [], length, IfOk};
ghost use Rattle.std.specs.Option.{option_copied};
ghost use Rattle.sdb_answer.specs.Selecting.{begun_after, bound_in, fits_token, key_fits, looks_in, number_after, number_in, number_of, page_outcome, selected, selected_after, selected_in, shown_or_counted, token_at};
ghost use Rattle.sdb_page.specs.Selects.{bound_of};
ghost use Rattle.sdb_pairs.specs.Accounts.{items_of};
ghost use Rattle.sdb_parse.specs.Computed.{parsed as tree_of};
ghost use Rattle.sdb_parse.specs.Tally.{by_attr};
ghost use Rattle.sdb_reply.specs.declared.outcome.Outcome.TheVariants.{Refused};
ghost use Rattle.sdb_tables.specs.Answers.{Answers};

use crate::answered::Answer;
use sdb_base::{AccountId, OutOfMemory, Steps, Text};
use sdb_domain::{Accounts, Domain};
use sdb_page::{Page, is_keyed};
use sdb_pairs::{Changes, ItemsOut};
use sdb_parse::{Select, parse};
use sdb_reply::Outcome;
use sdb_tables::Refusal;
use sdb_token::{Position, digest, read_token, write_token};
use std::alloc::Global;

/// The page of a Select after its token, or its first page. The first that applies refuses: what `parse` refuses,
/// InvalidNextToken where the token isn't one of this very expression, NoSuchDomain. The counter ticks at most once for
/// each item of the domain.
pub(crate) fn select<'a, L>(
    alloc: Global,
    accounts: &'a Accounts,
    account: AccountId,
    expression: &Text,
    token: &Option<Text>,
    items: &mut Steps<L>,
) -> Result<Answer<'a>, OutOfMemory>
    ensures outcome { IfOk result (λ p. p.outcome ≡ selected accounts.now account expression.now token.now) }
    ensures changes { IfOk result (λ p. p.changes ≡ []) }
    ensures bound { IfOk result (λ p. p.bound ≡ number_of bound_in accounts.now account expression.now token.now) }
    ensures later { items.old ≤ items.new }
    ensures looks { items.new ≤ items.old + number_of looks_in accounts.now account expression.now token.now }
{
    match parsed(alloc, expression) {
        Ok(select) => select_parsed(
            alloc,
            accounts,
            account,
            &select,
            &digest(expression),
            token,
            items,
        ),
        Err(Refusal::OutOfMemory) => Err(OutOfMemory),
        Err(refusal) => Ok(refused(alloc, refusal)),
    }
}

// The tree of an expression, or its first refusal.
fn parsed(alloc: Global, expression: &Text) -> Result<Select, Refusal>
    ensures { Answers (tree_of expression.now) result }
{
    parse(alloc, expression)
}

// The page of a Select that was parsed.
fn select_parsed<'a, L>(
    alloc: Global,
    accounts: &'a Accounts,
    account: AccountId,
    select: &Select,
    bound_to: &[u8; 32],
    token: &Option<Text>,
    items: &mut Steps<L>,
) -> Result<Answer<'a>, OutOfMemory>
    ensures outcome { IfOk result (λ p. p.outcome ≡ selected_after accounts.now account bound_to.now select.now (begun_after bound_to.now (by_attr select.now.sort) token.now)) }
    ensures changes { IfOk result (λ p. p.changes ≡ []) }
    ensures bound { IfOk result (λ p. p.bound ≡ number_after bound_in accounts.now account select.now (begun_after bound_to.now (by_attr select.now.sort) token.now)) }
    ensures later { items.old ≤ items.new }
    ensures looks { items.new ≤ items.old + number_after looks_in accounts.now account select.now (begun_after bound_to.now (by_attr select.now.sort) token.now) }
{
    match begins_after(alloc, select, bound_to, token) {
        Ok(after) => select_after(
            alloc,
            accounts,
            account,
            select,
            bound_to,
            after.as_ref(),
            items,
        ),
        Err(Refusal::OutOfMemory) => Err(OutOfMemory),
        Err(refusal) => Ok(refused(alloc, refusal)),
    }
}

// The position after which the page begins.
fn begins_after(
    alloc: Global,
    select: &Select,
    bound_to: &[u8; 32],
    token: &Option<Text>,
) -> Result<Option<Position>, Refusal>
    ensures { Answers (begun_after bound_to.now (by_attr select.now.sort) token.now) result }
{
    let Some(token) = token else {
        return Ok(None);
    };
    let position = read_token(alloc, token, bound_to, is_keyed(&select.sort))?;
    Ok(Some(position))
}

// The page of a Select after a position.
fn select_after<'a, L>(
    alloc: Global,
    accounts: &'a Accounts,
    account: AccountId,
    select: &Select,
    bound_to: &[u8; 32],
    after: Option<&Position>,
    items: &mut Steps<L>,
) -> Result<Answer<'a>, OutOfMemory>
    ensures outcome { IfOk result (λ p. p.outcome ≡ selected_in bound_to.now select.now (option_copied after.entry) (items_of accounts.now account select.now.domain)) }
    ensures changes { IfOk result (λ p. p.changes ≡ []) }
    ensures bound { IfOk result (λ p. p.bound ≡ number_in (bound_in select.now) (items_of accounts.now account select.now.domain)) }
    ensures later { items.old ≤ items.new }
    ensures looks { items.new ≤ items.old + number_in (looks_in select.now) (items_of accounts.now account select.now.domain) }
{
    match accounts.domain(account, &select.domain) {
        Some(domain) => select_in(alloc, domain, select, bound_to, after, items),
        None => Ok(refused(alloc, Refusal::NoSuchDomain)),
    }
}

// The page over a domain that is there.
fn select_in<'a, L>(
    alloc: Global,
    domain: &'a Domain,
    select: &Select,
    bound_to: &[u8; 32],
    after: Option<&Position>,
    items: &mut Steps<L>,
) -> Result<Answer<'a>, OutOfMemory>
    ensures outcome { IfOk result (λ p. p.outcome ≡ page_outcome bound_to.now select.now (option_copied after.entry) domain.now) }
    ensures changes { IfOk result (λ p. p.changes ≡ []) }
    ensures bound { IfOk result (λ p. p.bound ≡ bound_of select.now.cond domain.now) }
    ensures later { items.old ≤ items.new }
    ensures looks { items.new ≤ items.old + length domain.now }
{
    let Page {
        items: shown,
        count,
        next,
        bound,
    } = sdb_page::select(alloc, domain, select, after, items)?;
    let token = token_of(alloc, bound_to, next.as_ref())?;
    Ok(Answer {
        outcome: shown_or_counted(shown, count, token),
        changes: Changes::new(alloc),
        bound,
    })
}

// A page of items, or what a page counts.
fn shown_or_counted<'a>(shown: ItemsOut<'a>, count: Option<u64>, token: Option<Text>) -> Outcome<'a>
    ensures { result ≡ shown_or_counted shown.entry count token }
{
    match count {
        Some(count) => Outcome::Count(count, token),
        None => Outcome::Items(shown, token),
    }
}

// The token of a position, where there is one.
fn token_of(
    alloc: Global,
    bound_to: &[u8; 32],
    next: Option<&Position>,
) -> Result<Option<Text>, OutOfMemory>
    ensures { IfOk result (λ t. t ≡ token_at bound_to.now (option_copied next.entry)) }
{
    let Some(position) = next else {
        return Ok(None);
    };
    if !fits_token(position) {
        return Ok(None);
    }
    Ok(Some(write_token(alloc, position, bound_to)?))
}

// Whether a position fits into a token, as that of every lawful item does.
fn fits_token(position: &Position) -> bool
    ensures { result ≡ fits_token position.now }
{
    let size = position.name.as_str().len();
    key_fits(&position.key) && 1 <= size && size <= 1_024
}

fn key_fits(key: &Option<Text>) -> bool
    ensures { result ≡ key_fits key.now }
{
    match key {
        None => true,
        Some(key) => key.as_str().len() <= 1_024,
    }
}

// A refusal, which changes nothing and looks at nothing.
fn refused<'a>(alloc: Global, refusal: Refusal) -> Answer<'a>
    ensures outcome { result.outcome ≡ Refused refusal }
    ensures changes { result.changes ≡ [] }
    ensures bound { result.bound ≡ 0 }
{
    Answer {
        outcome: Outcome::Refused(refusal),
        changes: Changes::new(alloc),
        bound: 0,
    }
}
