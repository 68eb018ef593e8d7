// What is shown of every number in columns, and of every sheet, as a contract.
ghost use Rattle.sheet.specs.Columns.{ReadsBack};
ghost use Rattle.sheet.specs.Theorems.{AcceptedIsSheet, AcceptedRowByRow};

pub fn theorems()
    ensures { ReadsBack × AcceptedIsSheet × AcceptedRowByRow }
{}
