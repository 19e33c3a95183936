// Worked examples of the rules, as one table about the definitions that the contracts cite. The
// table is shown by one statement, which the prover computes.
#![tactic(auto)]

ghost use Rattle.std.specs.Prelude.{◌≡◌};
ghost use Rattle.worked.specs.Examples.{WorkedExamplesHold, every};
ghost use Rattle.worked.specs.Tables.{AllExamplesHold, example_holds, examples};

// Whether every example of the table holds, as it does; so do those of the offsets by themselves.
pub fn worked_examples_hold() -> bool
    ensures answer { result ≡ every example_holds examples }
    ensures offsets { WorkedExamplesHold }
    ensures all { AllExamplesHold }
{
    true
}
