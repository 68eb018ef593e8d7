// What is shown of icons 1 and the worked examples, as a contract.
ghost use Rattle.filters.specs.Examples.{ExamplesAreRight};
ghost use Rattle.filters.specs.Icon.{IconsArePrivate};

pub fn theorems()
    ensures { IconsArePrivate × ExamplesAreRight }
{}
