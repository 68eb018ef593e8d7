// What holds of every sheet that is marked, as a contract.
ghost use Rattle.marking.specs.Theorems.{Theorems};

pub fn theorems()
    ensures { Theorems }
{}
