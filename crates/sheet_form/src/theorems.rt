// What holds between sheets, decoded sheets and their bytes, as a contract.
ghost use Rattle.sheet_form.specs.Theorems.{Theorems};

pub fn theorems()
    ensures { Theorems }
{}
