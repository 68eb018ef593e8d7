// What is shown of finding a regex in a text, as a contract.
ghost use Rattle.byte_regex.specs.Match.{FindsExactly};

pub fn theorems()
    ensures { FindsExactly }
{}
