// The terms of an expression that are still to be read.
ghost use Rattle.std.specs.Prelude.{◌≡◌, ◌-◌, ◌<◌, [], ◌∷◌, ◌++◌, drop, length, IsTrue, OnOk, MatchOption, is_none};
ghost use Rattle.std.specs.Option.{option_copied};
ghost use Rattle.sdb_parse.specs.Reading.{has_sign, nothing_left, sees, sees_call};

use crate::sign::Sign;
use crate::term::Term;
use sdb_base::OutOfMemory;
use std::alloc::Global;
use std::collections::VecDeque;
use std::marker::Model;

// The terms that are still to be read.
#[derive(Debug, Drop)]
pub struct Cursor {
    ahead: VecDeque<Term>,
}

impl Model for Cursor {
    ghost use Rattle.std.specs.Prelude.{List};
    ghost use Rattle.sdb_parse.specs.declared.term.Term.{Term};

    ghost Value = { List Term };

    ghost view = { λ it. it.ahead.items };
}

impl Cursor {
    pub(crate) fn new(alloc: Global) -> Cursor
        ensures { result ≡ [] }
    {
        Cursor {
            ahead: VecDeque::new(alloc),
        }
    }

    // Puts a term after the others.
    pub(crate) fn push(&mut self, term: Term) -> Result<(), OutOfMemory>
        ensures { OnOk result (self.new ≡ self.old ++ term ∷ []) }
    {
        self.ahead.push_back(term)?;
        Ok(())
    }

    pub(crate) fn is_at_end(&self) -> bool
        ensures { result ≡ nothing_left self.now }
    {
        is_nothing(self.ahead.front())
    }

    // Whether the next term has that sign.
    pub(crate) fn sees(&self, sign: Sign) -> bool
        ensures value { result ≡ sees sign self.now }
        ensures some { IsTrue result → 0 < length self.now }
    {
        has_sign(self.ahead.front(), sign)
    }

    // Whether the next term has that sign and `(` follows it.
    pub(crate) fn sees_call(&self, sign: Sign) -> bool
        ensures { result ≡ sees_call sign self.now }
    {
        let first = has_sign(self.ahead.front(), sign);
        let second = has_sign(self.ahead.get(1), Sign::Open);
        first & second
    }

    // Passes over the next term.
    pub(crate) fn skip(&mut self)
        ensures rest { self.new ≡ drop 1 self.old }
        ensures len { length self.new ≡ length self.old - 1 }
    {
        self.ahead.pop_front();
    }

    // Takes the next term.
    pub(crate) fn take(&mut self) -> Option<Term>
        ensures { MatchOption result ((self.old ≡ []) × (self.new ≡ [])) (λ term. self.old ≡ term ∷ self.new) }
    {
        self.ahead.pop_front()
    }
}

fn has_sign(term: Option<&Term>, sign: Sign) -> bool
    ensures { result ≡ has_sign (option_copied term.entry) sign }
{
    match term {
        Some(term) => term.sign == sign,
        None => false,
    }
}

fn is_nothing(term: Option<&Term>) -> bool
    ensures { result ≡ is_none term.entry }
{
    match term {
        Some(_) => false,
        None => true,
    }
}
