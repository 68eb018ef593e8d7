// What is shown of the definitions and the worked examples, as a contract.
ghost use Rattle.html2text.specs.Counts.{CountsAreRight};
ghost use Rattle.html2text.specs.Encoded.{TextIsUtf8};
ghost use Rattle.html2text.specs.Examples.{ExamplesAreRight};
ghost use Rattle.html2text.specs.MissingAlt.{MissingAltRight};
ghost use Rattle.html2text.specs.Promises.{AlikeRight, Demand3ForAll, PassesRight, WalkRight};

pub fn theorems()
    ensures walk { WalkRight }
    ensures passes { PassesRight }
    ensures alike { AlikeRight }
    ensures demand { Demand3ForAll }
    ensures encoding { TextIsUtf8 }
    ensures missing_alt { MissingAltRight }
    ensures examples { ExamplesAreRight }
    ensures counts { CountsAreRight }
{}
