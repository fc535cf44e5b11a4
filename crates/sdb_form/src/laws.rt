// Laws of forms, each the contract of a function.
ghost use Rattle.std.specs.Prelude.{◌≡◌, ◌≢◌, ℕ, List, Result, Err};
ghost use Rattle.sdb_base.specs.Pairs.{NamedValues};
ghost use Rattle.sdb_form.specs.declared.fault.FormFault.{FormFault};
ghost use Rattle.sdb_form.specs.declared.fault.FormFault.TheVariants as variant;
ghost use Rattle.sdb_form.specs.Answer.{IsAnswer, params_of};
ghost use Rattle.sdb_form.specs.Form.{Decoded, IsParams};

/// A raw text stands for one list of bytes only.
pub fn one_text()
    ensures { (raw a b : List ℕ) → Decoded raw a → Decoded raw b → a ≡ b }
{}

/// A form has one list of parameters at most.
pub fn one_reading()
    ensures { (form : List ℕ) (a b : List (List ℕ × List ℕ)) → IsParams form a → IsParams form b → a ≡ b }
{}

/// Every form has exactly one answer: its parameters, its first piece that isn't UTF-8, or, where all
/// are, its first piece that repeats a name. Want of memory is none of them.
pub fn one_answer()
    ensures has_one { (form : List ℕ) → IsAnswer form (params_of form) }
    ensures not_memory { (form : List ℕ) → params_of form ≢ Err variant.OutOfMemory }
    ensures no_other { (form : List ℕ) (answer : Result NamedValues FormFault)
        → answer ≢ Err variant.OutOfMemory → IsAnswer form answer → answer ≡ params_of form }
{}
