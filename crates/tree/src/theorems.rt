// What is shown of every column of depths, every list of attributes and every accepted sheet, as a contract.
ghost use Rattle.tree.specs.Theorems.{ColumnIsTree, FirstCounts, RangeIsValue, SheetIsTree, SiblingIsPast};

pub fn theorems()
    ensures { ColumnIsTree × SiblingIsPast × FirstCounts × RangeIsValue × SheetIsTree }
{}
