// Byte strings in an order.
ghost use Rattle.std.specs.Prelude.{◌≡◌};
ghost use Rattle.name_classes.specs.Order.{before};

use packed::common_start;

// Whether a comes before b: by the first byte in which they differ, or because b goes on where a ends. Not `a < b`, which takes a byte at a
// time: names that begin alike are compared eight bytes at a time.
pub fn comes_before(a: &[u8], b: &[u8]) -> bool
    ensures { result ≡ before a.now b.now }
{
    let i = common_start(a, b);
    if b.len() <= i {
        return false;
    }
    if a.len() <= i {
        return true;
    }
    a[i] < b[i]
}
