// What the programs that take options share: whether a word was given.
#![tactic(auto)]

ghost use Rattle.std.specs.Prelude.{◌≡◌};
ghost use Rattle.laws.specs.Listing.{same_list};

use std::env::Env;

// Whether what was given is this word, and no more.
#[tactic(auto, using(crate::proofs::Words::pointwise_same))]
fn is_word(given: &[u8], word: &[u8]) -> bool
    ensures { result ≡ same_list given.now word.now }
{
    given == word
}

// Whether the k-th argument is this word. A longer argument than any option is none of them.
pub fn is_argument(rt: &HostRuntime, k: usize, word: &[u8]) -> bool {
    let mut given = [0u8; 16];
    let n = rt.arg(k, &mut given).unwrap_or(0);
    is_word(&given[..n], word)
}
