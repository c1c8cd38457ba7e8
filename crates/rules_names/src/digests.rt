// Digests of names, made once a record, so that names that differ are seldom compared.
ghost use Rattle.std.specs.Prelude.{◌≡◌, ◌<◌, ℕ, ◌≤◌, get_or};
ghost use Rattle.rules_names.specs.Digests.{digest_of, fingerprint_of, Fingerprinted};

use packed::word_at;

// The digest of a name, four bytes at a time.
fn digest(s: &[u8]) -> u64
    ensures { (result ≡ digest_of s.now) × (result < 4294967296) }
{
    let mut d: u64 = 0;
    for i in 0..s.len().min(256).div_ceil(4) {
        d = (1000003 * d + word_at(s, 4 * i)) % 4294967296;
    }
    d
}

// The fingerprint of a name under a number.
#[tactic(auto, unfolding(crate::specs::Digests::fingerprint_of))]
pub fn fingerprint_of(n: u16, s: &[u8]) -> u64
    ensures { result ≡ fingerprint_of n s.now }
{
    u64::from(n) * 4294967296 + digest(s)
}

// The fingerprints of the first n records; 0 past them.
pub fn fingerprints<const N: usize, F: Fn(u16) -> u64>(n: u16, of: F) -> [u64; N]
    requires room { n ≤ N }
    requires callable { (k : ℕ) → k < n → F.pre of k }
    ensures value { (fingerprint : ℕ → ℕ) → ((k x : ℕ) → k < n → F.post of k x → x ≡ fingerprint k) → Fingerprinted fingerprint n result }
    ensures past { (k : ℕ) → n ≤ k → k < N → get_or result k 0 ≡ 0 }
{
    let mut fingerprints = [0u64; N];
    for k in 0..n {
        fingerprints[k as usize] = of(k);
    }
    fingerprints
}

#[cfg(test)]
mod tests {
    use super::*;

    #[test]
    fn one_fingerprint_a_record(rt: HostRuntime) {
        let made: [u64; 4] = fingerprints(3, |k| fingerprint_of(k, b"Hall"));
        assert_eq!(rt; made, [0x48616c6c, 0x1_48616c6c, 0x2_48616c6c, 0]);
    }
}
