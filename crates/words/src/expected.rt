// A given text at the head of another.
ghost use Rattle.words.specs.Expecting.{Expects};

// The text behind `prefix`, if it stands at the head.
pub fn expect<'a>(text: &'a [u8], prefix: &[u8]) -> Option<&'a [u8]>
    ensures { Expects prefix.now text.now result }
{
    text.strip_prefix(prefix)
}
