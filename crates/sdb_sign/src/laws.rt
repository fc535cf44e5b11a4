//! The laws of signatures.

ghost use Rattle.std.specs.Prelude.{◌≡◌, ℕ, List};
ghost use Rattle.std.specs.List.Sorted.{IsPermutation};
ghost use Rattle.std.specs.Map.{keys_of};
ghost use Rattle.sdb_base.specs.declared.verb.Verb.{Verb};
ghost use Rattle.sdb_base.specs.Pairs.{HasDistinctNames, NamedValues};
ghost use Rattle.sdb_base.specs.Texts.{AreRising};
ghost use Rattle.sdb_keys.specs.declared.keys.Key.{Key};
ghost use Rattle.sdb_sign.specs.Canon.{rising};
ghost use Rattle.sdb_sign.specs.Signing.{IsVerdict, Verdict};

/// Parameters with distinct names have one order in which they rise by name, and it is that of the
/// canonical query.
pub fn one_order()
    ensures rising { (params : NamedValues) → AreRising (keys_of (rising params)) }
    ensures same { (params : NamedValues) → HasDistinctNames params → IsPermutation params (rising params) }
    ensures only { (params other : NamedValues) → HasDistinctNames params → AreRising (keys_of other)
        → IsPermutation params other → other ≡ rising params }
{}

/// A request has one verdict at most.
pub fn one_verdict()
    ensures { (verb : Verb) (host : List ℕ) (params : NamedValues) (keys : List Key) (now : ℕ) (a b : Verdict)
        → IsVerdict verb host params keys now a → IsVerdict verb host params keys now b → a ≡ b }
{}
