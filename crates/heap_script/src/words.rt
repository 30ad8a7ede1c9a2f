// Words of a line.

ghost use Rattle.std.specs.Prelude.{◌≡◌};
ghost use Rattle.gc_graph.specs.Words as spec;

pub(crate) fn is_text(word: &[u8], text: &[u8]) -> bool
    ensures { result ≡ spec.is_text word.now text.now }
{
    word == text
}
