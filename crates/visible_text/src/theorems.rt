// What is shown of the visible text, as a contract.
ghost use Rattle.visible_text.specs.Examples.{ExamplesRight};
ghost use Rattle.visible_text.specs.Theorems.{Collapsing, LoopIsWalk, MarksUntouched};
ghost use Rattle.visible_text.specs.WhiteSpace.{TrimsWhiteSpace};

pub fn theorems()
    ensures walk { LoopIsWalk }
    ensures blanks { Collapsing }
    ensures white_space { TrimsWhiteSpace }
    ensures marks { MarksUntouched }
    ensures examples { ExamplesRight }
{}
