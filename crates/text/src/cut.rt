// A text cut in two.
ghost use Rattle.std.specs.Prelude.{◌≡◌, ◌≢◌, ◌∷◌, ◌++◌, All, MatchOption};

// What stands before the first `stop`, and what follows that; nothing follows where there is none.
pub fn cut(stop: u8, bytes: &[u8]) -> (&[u8], Option<&[u8]>)
    ensures before { All (λ b. b ≢ stop) result.0.now }
    ensures after { MatchOption result.1 (bytes.now ≡ result.0.now) (λ rest. bytes.now ≡ result.0.now ++ stop ∷ rest.now) }
{
    match bytes.iter().position(|b| *b == stop) {
        Some(at) => (&bytes[..at], Some(&bytes[at + 1..])),
        None => (bytes, None),
    }
}
