// What is shown of the link measure and the worked examples, as a contract.
ghost use Rattle.links.specs.Exact.{CountsBounded, ElementsAreExact, LinksByDepth, RulesAreExact};
ghost use Rattle.links.specs.Examples.{CountsHold, ExamplesHold};

pub fn theorems()
    ensures { RulesAreExact × ElementsAreExact × LinksByDepth × CountsBounded × ExamplesHold × CountsHold }
{}
