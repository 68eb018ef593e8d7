// What is shown of the tags' numbers and the tests on them, as a contract.
ghost use Rattle.tags.specs.Tags.{NumbersOfNames, TagsTellNames};

pub fn theorems()
    ensures { TagsTellNames × NumbersOfNames }
{}
