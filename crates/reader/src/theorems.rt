// What the other entry points and our own options do to the texts, as a contract.
ghost use Rattle.reader.specs.Marked.{MarkedTexts};
ghost use Rattle.reader.specs.MissingAlt.{MissingAltWritten};

pub fn theorems()
    ensures marked { MarkedTexts }
    ensures missing_alt { MissingAltWritten }
{}
