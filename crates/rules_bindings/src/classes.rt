// Segments compared by their codes: properties of one name are of one class.
ghost use Rattle.std.specs.Prelude.{◌≡◌, not, ◌+◌, ◌<◌, eqb, get_or};
ghost use Rattle.csdl.specs.Search.{any_from};
ghost use Rattle.rules_bindings.specs.Bindings.{class_of};

use path_resolution::codes::code_at;

// The class of a code: for a property the first that has its name, plus 1; a cast is its own.
pub(crate) fn class_of(index: &[u16; 1793], code: u32) -> u32
    ensures { result ≡ class_of index.now code }
{
    if code >= 512 {
        return code;
    }
    u32::from(index[512 + (code as usize)])
}

// Whether one of the n segments from g on is of another class than the segment at its place from h on.
pub(crate) fn other_class(index: &[u16; 1793], codes: &[u32], g: u16, h: u16, n: u16) -> bool
    requires { (g < 2048) × (h < 2048) × (n < 16) }
    ensures { result ≡ any_from (λ k. not (eqb (class_of index.now (get_or codes.now (g + k) 0)) (class_of index.now (get_or codes.now (h + k) 0)))) 0 n }
{
    (0..n).any(|k| class_of(index, code_at(codes, g + k)) != class_of(index, code_at(codes, h + k)))
}
