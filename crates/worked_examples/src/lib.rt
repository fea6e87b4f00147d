// The worked examples, as one list in specs/Examples.antt, and one theorem: the definitions that
// the contracts of the calls cite give every one of them.
#![tactic(auto)]

ghost use Rattle.worked_examples.specs.Examples.{examples, Holds};
ghost use Rattle.std.specs.List.{AllByRecursion};

/// Every worked example holds.
pub fn worked_examples()
    ensures { AllByRecursion Holds examples }
{}
