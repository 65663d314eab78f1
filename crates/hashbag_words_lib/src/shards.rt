//! Shards: parts of all tokens, by a fixed hash of the token.
ghost use Rattle.std.specs.Prelude.{◌≡◌, ◌<◌, IfSome};
ghost use Rattle.hashbag_words_lib.specs.Shards.{fnv, is_in, is_in_shard};

/// A shard: one of `of` parts of all tokens. A token is in the part whose index is the hash of the token modulo `of`.
///
/// So each token is in exactly one of the shards `0..of`, in every bag and in every run of the program.
#[derive(Clone, Copy, Debug, PartialEq, Eq)]
pub struct Shard {
    /// The index of the part, from 0.
    pub index: u64,
    /// How many parts there are.
    pub of: u64,
}

/// Returns the hash FNV-1a of 64 bits of a text.
pub fn hash(text: &str) -> u64
    ensures { result ≡ fnv text.now }
{
    let mut hash = 0xcbf2_9ce4_8422_2325u64;
    for byte in text.as_bytes() {
        hash = (hash ^ *byte as u64).wrapping_mul(0x0100_0000_01b3);
    }
    hash
}

impl Shard {
    /// Returns the shard that is written as `I/N`, with `I` from 1 to `N`, or `None` if the text isn't of this form.
    pub fn of_text(text: &str) -> Option<Shard>
        ensures { IfSome result (λ shard. shard.index < shard.of) }
    {
        let (first, second) = text.split_once('/')?;
        let number = first.parse::<u64>().ok()?;
        let of = second.parse::<u64>().ok()?;
        if number == 0 || number > of {
            return None;
        }
        Some(Shard {
            index: number - 1,
            of,
        })
    }

    /// Returns whether a token is in this shard. If `of` is 0, no token is.
    pub fn has(&self, token: &str) -> bool
        // The shard has the token if the token's hash modulo `of` is `index`. If `of` is 0, it has none.
        ensures { result ≡ is_in self.now token.now }
    {
        self.of > 0 && hash(token) % self.of == self.index
    }
}

// Returns whether a token is in the shard; without a shard, every token is.
pub(crate) fn is_in_shard(shard: Option<Shard>, token: &str) -> bool
    ensures { result ≡ is_in_shard shard token.now }
{
    match shard {
        Some(shard) => shard.has(token),
        None => true,
    }
}
