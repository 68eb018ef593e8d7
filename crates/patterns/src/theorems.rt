// What is shown of the patterns, their table and the worked examples, as a contract.
ghost use Rattle.patterns.specs.Examples.{ExamplesAreRight};
ghost use Rattle.patterns.specs.Match.{MatchesExactly};
ghost use Rattle.patterns.specs.Steps.{StayInside};

pub fn theorems()
    ensures { MatchesExactly × StayInside × ExamplesAreRight }
{}
