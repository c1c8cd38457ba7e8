// Sets of properties.
ghost use Rattle.std.specs.Prelude.{◌≡◌, ◌||◌, ◌+◌, ◌≤◌, ◌<◌, eqb, length};
ghost use Rattle.type_names.specs.Wide.{wide, MembersWide, unlike_wide, with_row};

use type_hierarchy::type_sets::{in_set, with_one};

// Whether p is in the set.
pub fn in_wide(words: &[u64], from: usize, p: u16) -> bool
    requires { (p < 512) × (from + 8 ≤ length words.now) }
    ensures { result ≡ wide words.now from p }
{
    in_set(words[from + (p / 64) as usize], p % 64)
}

// The set, and p in it.
pub fn with_wide(mut words: [u64; 8], p: u16) -> [u64; 8]
    requires { (length words ≡ 8) × (p < 512) }
    ensures { (length result ≡ 8) × MembersWide result 0 (λ q. wide words 0 q || eqb p q) }
{
    let k = (p / 64) as usize;
    words[k] = with_one(words[k], p % 64);
    words
}

// Whether two sets differ.
pub fn unlike(a: &[u64], b: &[u64], from: usize) -> bool
    requires { (length a.now ≡ 8) × (from + 8 ≤ length b.now) }
    ensures { result ≡ unlike_wide a.now b.now from }
{
    a[..] != b[from..from + 8]
}

// The rows, with a set as row t.
pub fn with_row(mut rows: [u64; 512], row: [u64; 8], t: u16) -> [u64; 512]
    requires { (length rows ≡ 512) × (length row ≡ 8) × (t < 64) }
    ensures { result ≡ with_row rows row t }
{
    let from = 8 * (t as usize);
    rows[from..from + 8].copy_from_slice(&row);
    rows
}
