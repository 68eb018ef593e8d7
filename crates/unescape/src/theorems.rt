// What is shown of `unescape`, as a contract.
ghost use Rattle.unescape.specs.Examples.{ExamplesRight};
ghost use Rattle.unescape.specs.Theorems.{Parts, Redoes, Refuses, Undoes};

pub fn theorems()
    ensures undoes { Undoes }
    ensures redoes { Redoes }
    ensures parts { Parts }
    ensures refuses { Refuses }
    ensures examples { ExamplesRight }
{}
