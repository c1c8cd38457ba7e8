// What the segments of an accepted model resolve to, written into the caller's buffer: two bytes a segment, high byte first.
ghost use Rattle.std.specs.Prelude.{◌≡◌, ◌++◌, ◌*◌, ◌≤◌, length, drop};
ghost use Rattle.path_resolution.specs.Written.{code_bytes};

use crate::codes::code_at;
use packed::byte_of;

// The codes of the first n segments; the bytes after them stay.
pub fn write_resolution(codes: &[u32], n: u16, out: &mut [u8])
    requires { 2 * n ≤ length out.old }
    ensures { out.new ≡ code_bytes codes.now n ++ drop (2 * n) out.old }
{
    for g in 0..n {
        let code = code_at(codes, g);
        let at = 2 * (g as usize);
        out[at] = byte_of(code, 1);
        out[at + 1] = byte_of(code, 0);
    }
}
