// The codes of a resolved path. They stand in fixed memory, as a path has at most 15 segments, and how many there are stands beside.
ghost use Rattle.model_image.specs.Read.{model_read};
ghost use Rattle.std.specs.Prelude.{◌≡◌, ◌<◌, get_or, IfSome};
ghost use Rattle.csdl.specs.Search.{any_from, found};
ghost use Rattle.path_resolution.specs.Resolution.{cast_code, code_end, last_code, last_name};
ghost use Rattle.path_resolution.specs.Coded.{run_of};

use model_image::model::Model;

// The code of the cast to type 0: that of the cast to type t is t more, and codes below are numbers of properties.
pub const FIRST_CAST: u32 = 32768;

// The type reference that is none, and the code of a name that means nothing: that of a cast to none.
pub const NO_REFERENCE: u32 = 64;

pub const NOTHING: u32 = FIRST_CAST + NO_REFERENCE;

// The code of segment g, 0 past the end.
pub fn code_at(codes: &[u32], g: u16) -> u32
    ensures { result ≡ get_or codes.now g 0 }
{
    let at = g as usize;
    if at < codes.len() { codes[at] } else { 0 }
}

// The codes of the path of n segments from segment `first` on, out of the codes of all segments.
pub fn run_of(codes: &[u32], first: u16, n: u16) -> [u32; 16]
    requires { (first < 2048) × (n < 16) }
    ensures { result ≡ run_of codes.now first n }
{
    let mut run = [0u32; 16];
    for k in 0..n {
        run[k as usize] = code_at(codes, first + k);
    }
    run
}

// Whether one of the first `count` codes is a cast.
pub fn has_cast(codes: &[u32; 16], count: u16) -> bool
    requires { count < 16 }
    ensures { result ≡ any_from (λ k. cast_code (get_or codes.now k 0)) 0 count }
{
    (0..count).any(|k| codes[k as usize] >= FIRST_CAST)
}

// The last of the first `count` codes; that of nothing where there is none.
#[tactic(auto, unfolding(crate::specs::Resolution::last_code))]
pub fn last_code(codes: &[u32; 16], count: u16) -> u32
    requires { count < 16 }
    ensures { result ≡ last_code codes.now count }
{
    if count == 0 {
        return NOTHING;
    }
    codes[(count - 1) as usize]
}

// The type reference at the end of a path with the first n codes, from type `start` on.
#[tactic(auto, unfolding(crate::specs::Resolution::code_end, crate::specs::Resolution::code_to))]
pub fn end_of(model: &Model, codes: &[u32; 16], start: u16, n: u16) -> u32
    requires { n < 16 }
    ensures { result ≡ code_end (model_read model.now) start codes.now n }
{
    if n == 0 {
        return start as u32;
    }
    let code = codes[(n - 1) as usize];
    if code < FIRST_CAST {
        return model.property_type_ref(code as u16) as u32;
    }
    code - FIRST_CAST
}

// Where the last name of the first `count` codes stands.
pub fn last_name(codes: &[u32; 16], count: u16) -> Option<u16>
    requires { count < 16 }
    ensures value { result ≡ found (last_name codes.now count) }
    ensures bound { IfSome result (λ k. k < count) }
{
    (0..count).rev().find(|k| codes[*k as usize] < FIRST_CAST)
}
