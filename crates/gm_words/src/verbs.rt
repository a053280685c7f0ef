//! The first word of a command line.

ghost use Rattle.std.specs.Prelude.{◌≡◌};
ghost use Rattle.gm_words.specs.Jobs.{verb_of};

/// What the first word asks for.
#[derive(Clone, Copy, Debug, PartialEq, Eq)]
pub enum Verb {
    Run,
    Check,
    Compile,
    Exec,
    Demo,
}

/// What a first word asks for, where it is one of the five, letter by letter.
pub fn read_verb(word: &str) -> Option<Verb>
    ensures { result ≡ verb_of word.now }
{
    match word {
        "run" => Some(Verb::Run),
        "check" => Some(Verb::Check),
        "compile" => Some(Verb::Compile),
        "exec" => Some(Verb::Exec),
        "demo" => Some(Verb::Demo),
        _ => None,
    }
}
