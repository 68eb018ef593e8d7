// What `valid` decides, as a contract: the grammar of section 4, which is the encodings of section 3.
ghost use Rattle.utf8.specs.Encoding.{GrammarIsEncoding};
ghost use Rattle.utf8.specs.Valid.{ValidIsGrammar};

pub fn theorems()
    ensures { ValidIsGrammar × GrammarIsEncoding }
{}
