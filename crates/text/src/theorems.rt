// What is shown of the functions on bytes, as a contract.
ghost use Rattle.std.specs.Prelude.{Bool, ℕ};
ghost use Rattle.text.specs.Theorems.{Collapses, CollapsesRuns, EscapeParts, Idempotent, NotLonger, RstripAppends, StruckOut};

pub fn theorems()
    ensures { ((blank : ℕ → Bool) → StruckOut blank × Collapses blank × CollapsesRuns blank × Idempotent blank × NotLonger blank × RstripAppends blank) × EscapeParts }
{}
