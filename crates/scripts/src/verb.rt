// The first word of a line.
ghost use Rattle.std.specs.Prelude.{◌≡◌};
ghost use Rattle.scripts.specs.Verbs.{verb_of};

#[derive(Clone, Copy)]
pub(crate) enum Verb {
    Look,
    Next,
    List,
    Room,
    Need,
    Put,
    Mkdir,
    Chmod,
    Remove,
    // No call: it parts the calls before it from those behind it.
    File,
}

impl Verb {
    pub(crate) fn of(word: &[u8]) -> Option<Verb>
        ensures { result ≡ verb_of word.now }
    {
        Some(match word {
            b"look" => Verb::Look,
            b"next" => Verb::Next,
            b"list" => Verb::List,
            b"room" => Verb::Room,
            b"need" => Verb::Need,
            b"put" => Verb::Put,
            b"mkdir" => Verb::Mkdir,
            b"chmod" => Verb::Chmod,
            b"remove" => Verb::Remove,
            b"file" => Verb::File,
            _ => return None,
        })
    }
}
