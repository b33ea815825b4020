// Which bytes of a path stand for themselves in a text.
ghost use Rattle.std.specs.Prelude.{◌≡◌};
ghost use Rattle.words.specs.Printable.{printable as printable_of};

pub fn is_printable(b: u8) -> bool
    ensures { result ≡ printable_of b }
{
    b.is_ascii_graphic() && b != b'\\' && b != b'#'
}
