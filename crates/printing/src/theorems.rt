// What is shown of the line of numbers, as a contract.
ghost use Rattle.printing.specs.Columns.{LinesFit};

pub fn theorems()
    ensures { LinesFit }
{}
