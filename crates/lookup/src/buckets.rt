// The buckets of names, for the first guess of a lookup.
ghost use Rattle.std.specs.Prelude.{◌≡◌, ◌<◌};
ghost use Rattle.lookup.specs.Buckets.{from_end, bucket_of};

use packed::byte_at;

// Byte k from the end, 0 where there is none.
fn from_end(s: &[u8], k: usize) -> u64
    requires { k < 4 }
    ensures { (result ≡ from_end s.now k) × (result < 256) }
{
    if s.len() <= k {
        return 0;
    }
    byte_at(s, s.len() - (k + 1))
}

// The bucket of a name.
pub fn bucket_of(s: &[u8]) -> u16
    ensures { (result ≡ bucket_of s.now) × (result < 256) }
{
    let sum = 37 * byte_at(s, 0) + 100 * from_end(s, 2) + 10 * from_end(s, 1) + from_end(s, 0);
    (sum % 256) as u16
}
