// Where a word stands in a list of word numbers.
ghost use Rattle.std.specs.Prelude.{◌≡◌, ◌<◌, length, position, IfSome, ◌==◌};

pub fn place_of(words: &[u32], word: u32) -> Option<usize>
    ensures value { result ≡ position (λ w. w == word) words.now }
    ensures within { IfSome result (λ place. place < length words.now) }
{
    words.iter().position(|w| *w == word)
}
