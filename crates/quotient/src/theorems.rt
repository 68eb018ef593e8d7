// What is shown of two f64 quotients, as a contract.
ghost use Rattle.quotient.specs.Quotient.{ComparesExactly, FifthIsQuotient, ThreeFifthsIsQuotient};

pub fn theorems()
    ensures { ComparesExactly × FifthIsQuotient × ThreeFifthsIsQuotient }
{}
