// Packed fields and byte strings. The reader goes by shifts and masks; each stands in a small function whose contract is in / and %.
#![tactic(auto)]

ghost use Rattle.std.specs.Prelude.{◌≡◌, ◌+◌, ◌*◌, ◌/◌, ◌%◌, ◌^◌, ◌≤◌, ◌<◌, length, get_or, drop};
ghost use Rattle.packed.specs.Field.{field_of, flag_of};
ghost use Rattle.packed.specs.Bytes.{same, common_start, part};

// Byte i.
fn byte_in(s: &[u8], i: usize) -> u64
    requires { i < length s.now }
    ensures { (result ≡ get_or s.now i 0) × (result < 256) }
{
    s[i] as u64
}

// Byte i, or 0 past the end.
pub fn byte_at(s: &[u8], i: usize) -> u64
    ensures { (result ≡ get_or s.now i 0) × (result < 256) }
{
    s.get(i).map_or(0, |b| *b as u64)
}

// The place of bit k in its byte.
fn in_byte(k: usize) -> usize
    ensures { result ≡ k % 8 }
{
    k & 7
}

// Four bytes as one number of 32 bits.
fn word_of(a: u64, b: u64, c: u64, d: u64) -> u64
    requires { (a < 256) × (b < 256) × (c < 256) × (d < 256) }
    ensures { result ≡ (a * 256 + b) * 65536 + (c * 256 + d) }
{
    joined(joined(a, b, 8, 8), joined(c, d, 8, 8), 16, 16)
}

// The 32 bits from byte i on, where there are as many.
fn four_in(s: &[u8], i: usize) -> u64
    requires { i + 4 ≤ length s.now }
    ensures { (result ≡ field_of s.now (8 * i) 32) × (result < 4294967296) }
{
    word_of(
        byte_in(s, i),
        byte_in(s, i + 1),
        byte_in(s, i + 2),
        byte_in(s, i + 3),
    )
}

// The 32 bits from byte i on.
pub fn word_at(s: &[u8], i: usize) -> u64
    requires { i < 18446744073709551612 }
    ensures { result ≡ field_of s.now (8 * i) 32 }
{
    if i + 4 <= s.len() {
        return four_in(s, i);
    }
    word_of(
        byte_at(s, i),
        byte_at(s, i + 1),
        byte_at(s, i + 2),
        byte_at(s, i + 3),
    )
}

// The 16 bits from byte i on.
fn pair_at(s: &[u8], i: usize) -> u64
    requires { i < 4294967296 }
    ensures { result ≡ field_of s.now (8 * i) 16 }
{
    if i + 2 <= s.len() {
        return joined(byte_in(s, i), byte_in(s, i + 1), 8, 8);
    }
    joined(byte_at(s, i), byte_at(s, i + 1), 8, 8)
}

// The n low bits of x.
fn low_bits(x: u64, n: usize) -> u64
    requires { n ≤ 32 }
    ensures { (result ≡ x % 2 ^ n) × (result < 2 ^ n) }
{
    x & ((1 << n) - 1)
}

// `lo`, of n bits, behind `hi`, of k bits.
fn joined(hi: u64, lo: u64, k: usize, n: usize) -> u64
    requires { (n ≤ 32) × (k + n ≤ 64) × (hi < 2 ^ k) × (lo < 2 ^ n) }
    ensures { result ≡ hi * 2 ^ n + lo }
{
    (hi << n) | lo
}

// A field of any width, up to 32 bits of the bytes at a time; the first step is as long as its first byte leaves, so that no range counts the steps.
#[inline(never)]
fn long_field(s: &[u8], off: u32, width: u32) -> u64
    requires { width ≤ 64 }
    ensures value { result ≡ field_of s.now off width }
    ensures upper_bound { result < 2 ^ width }
{
    let from = off as usize;
    let all = width as usize;
    let mut r: u64 = 0;
    let mut done: usize = 0;
    while done < all {
        let at = from + done;
        let room = 32 - in_byte(at);
        let n = room.min(all - done);
        let bits = low_bits(word_at(s, at >> 3) >> (room - n), n);
        r = joined(r, bits, done, n);
        done += n;
    }
    r
}

// The number made of the `width` bits of s from bit `off` on, most significant first. Bits past the end are 0. A field that lies in one byte
// or in two takes one read.
#[inline(always)]
pub fn field(s: &[u8], off: u32, width: u32) -> u64
    requires { width ≤ 64 }
    ensures value { result ≡ field_of s.now off width }
    ensures upper_bound { result < 2 ^ width }
{
    let from = off as usize;
    let n = width as usize;
    let used = in_byte(from) + n;
    if used <= 8 {
        return low_bits(byte_at(s, from >> 3) >> (8 - used), n);
    }
    if used <= 16 {
        return low_bits(pair_at(s, from >> 3) >> (16 - used), n);
    }
    long_field(s, off, width)
}

// A field of at most 16 bits.
pub fn field16(s: &[u8], off: u32, width: u32) -> u16
    requires { width ≤ 16 }
    ensures value { result ≡ field_of s.now off width }
    ensures upper_bound { result < 2 ^ width }
{
    field(s, off, width) as u16
}

// Number k of the 16-bit numbers that s is made of.
pub fn number_at(s: &[u8], k: u16) -> u16
    ensures { result ≡ field_of s.now (16 * k) 16 }
{
    field16(s, 16 * (k as u32), 16)
}

// Two fields, one behind the other.
#[derive(Clone, Copy)]
pub struct Two {
    pub first: u16,
    pub second: u16,
}

// The field of w bits at `off` and the n bits behind it, read at once.
pub fn two_fields(s: &[u8], off: u32, w: u32, n: u32) -> Two
    requires { (w ≤ 16) × (n ≤ 16) }
    ensures first_value { (result.first ≡ field_of s.now off w) × (result.first < 2 ^ w) }
    ensures second_value { (result.second ≡ field_of s.now (off + w) n) × (result.second < 2 ^ n) }
{
    let both = field(s, off, w + n);
    Two {
        first: (both >> n) as u16,
        second: low_bits(both, n as usize) as u16,
    }
}

// Whether bit `off` is set.
pub fn flag(s: &[u8], off: u32) -> bool
    ensures { result ≡ flag_of s.now off }
{
    field(s, off, 1) == 1
}

// Whether two strings have the same two bytes from byte i on; the same four; the same eight. All bytes are compared, so that the compiler takes
// the eight as one number.
fn same_two(a: &[u8], b: &[u8], i: usize) -> bool
    requires { (i + 2 ≤ length a.now) × (i + 2 ≤ length b.now) }
    ensures { result ≡ same (part a.now i 2) (part b.now i 2) }
{
    (a[i] == b[i]) & (a[i + 1] == b[i + 1])
}

fn same_four(a: &[u8], b: &[u8], i: usize) -> bool
    requires { (i + 4 ≤ length a.now) × (i + 4 ≤ length b.now) }
    ensures { result ≡ same (part a.now i 4) (part b.now i 4) }
{
    same_two(a, b, i) & same_two(a, b, i + 2)
}

fn same_eight(a: &[u8], b: &[u8], i: usize) -> bool
    requires { (i + 8 ≤ length a.now) × (i + 8 ≤ length b.now) }
    ensures { result ≡ same (part a.now i 8) (part b.now i 8) }
{
    same_four(a, b, i) & same_four(a, b, i + 4)
}

// How many of the first n bytes two strings begin alike in, as far as eight bytes at a time tell.
fn alike_eights(a: &[u8], b: &[u8], n: usize) -> usize
    requires { (n ≤ length a.now) × (n ≤ length b.now) }
    ensures { (result ≤ n) × (common_start a.now b.now ≡ result + common_start (drop result a.now) (drop result b.now)) }
{
    let eights = n / 8;
    let alike = (0..eights).find(|k| !same_eight(a, b, 8 * *k));
    8 * alike.unwrap_or(eights)
}

// How many bytes two strings begin alike in.
pub fn common_start(a: &[u8], b: &[u8]) -> usize
    ensures { result ≡ common_start a.now b.now }
{
    let n = a.len().min(b.len());
    let first = (alike_eights(a, b, n)..n).find(|i| a[*i] != b[*i]);
    first.unwrap_or(n)
}

// Whether two byte strings are equal.
pub fn same_bytes(a: &[u8], b: &[u8]) -> bool
    ensures { result ≡ same a.now b.now }
{
    a == b
}

// The `len` bytes from byte `start` on, or as many as there are.
pub fn part_of(s: &[u8], start: u32, len: u32) -> &[u8]
    ensures { result.now ≡ part s.now start len }
{
    let a = start as usize;
    if s.len() <= a {
        return &s[..0];
    }
    let e = a + len as usize;
    if s.len() <= e {
        return &s[a..];
    }
    &s[a..e]
}

// Byte k of a number, from its least significant on.
pub fn byte_of(x: u32, k: u32) -> u8
    requires { k < 4 }
    ensures { result ≡ x / 256 ^ k % 256 }
{
    ((x >> (8 * k)) & 255) as u8
}
