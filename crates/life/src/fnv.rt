// FNV-1a of 64 bits.
ghost use Rattle.std.specs.Prelude.{◌≡◌};
ghost use Rattle.life.specs.Fnv.{fnv, word_of};

const START: u64 = 14695981039346656037;

const PRIME: u64 = 1099511628211;

// The word of the bytes, going on from `start`.
pub fn hash_on(start: u64, bytes: &[u8]) -> u64
    ensures { result ≡ fnv start bytes.now }
{
    bytes.iter().fold(start, |word, b| (word ^ u64::from(*b)).wrapping_mul(PRIME))
}

// The word of the bytes.
#[tactic(auto, unfolding(crate::specs::Fnv::word_of))]
pub fn hash(bytes: &[u8]) -> u64
    ensures { result ≡ word_of bytes.now }
{
    hash_on(START, bytes)
}
