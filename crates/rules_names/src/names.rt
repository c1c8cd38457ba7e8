// Rule 5: simple identifiers and namespaces.
ghost use Rattle.std.specs.Prelude.{◌≡◌, cond, ℕ, suc, min, not, ◌&&◌, ◌≤◌, ◌<◌, eqb, leb, length, get_or, drop, replicate};
ghost use Rattle.packed.specs.Bytes.{part};
ghost use Rattle.csdl.specs.Form as rules;
ghost use Rattle.csdl.specs.Search.{all};
ghost use Rattle.model_image.specs.Read.{model_read};
ghost use Rattle.rules_names.specs.Identifiers.{Limits, identifier_limit};

use csdl::Record;
use model_image::fields::{Name, text_of};
use model_image::model::Model;

// A letter, a digit or an underscore.
#[tactic(auto, unfolding(csdl::specs::Form::is_word_byte, csdl::specs::Form::is_letter, csdl::specs::Form::is_digit))]
fn is_word_byte(c: u8) -> bool
    ensures { result ≡ rules.is_word_byte c }
{
    c.is_ascii_alphabetic() | c.is_ascii_digit() | (c == b'_')
}

// Whether the bytes are a simple identifier.
#[tactic(auto, unfolding(csdl::specs::Form::simple))]
fn is_simple(s: &[u8]) -> bool
    ensures { result ≡ rules.simple s.now }
{
    if s.is_empty() {
        return false;
    }
    (s.len() <= 128) & !s[0].is_ascii_digit() & s.iter().all(|c| is_word_byte(*c))
}

// Whether the bytes are simple identifiers joined by dots.
fn is_dotted(s: &[u8]) -> bool
    ensures { result ≡ all (λ p. rules.simple p) (rules.dotted s.now) }
{
    s.split(|c| *c == b'.').all(|part| is_simple(part))
}

// One more than the number of word bytes that bytes begin with, at most 129: of those from c on by that of those behind c.
fn word_limit(c: u8, rest: u16) -> u16
    requires { rest ≤ 129 }
    ensures { (result ≡ cond (rules.is_word_byte c) (min 129 (suc rest)) 1) × (result ≤ 129) }
{
    if is_word_byte(c) {
        (rest + 1).min(129)
    } else {
        1
    }
}

// The limit of bytes that begin with c, by that of their word bytes.
#[tactic(auto, unfolding(csdl::specs::Form::is_digit))]
fn identifier_limit(c: u8, words: u16) -> u16
    ensures { result ≡ cond (rules.is_digit c) 1 words }
{
    if c.is_ascii_digit() { 1 } else { words }
}

// For each name byte the least size that is too long for a simple identifier from there on: one pass over the name bytes, from the end. A model
// has at most 4096 name bytes.
pub fn identifier_limits(names: &[u8], limits: &mut [u16; 4096])
    requires { limits.old ≡ replicate 4096 1 }
    ensures { (length limits.new ≡ 4096) × ((i : ℕ) → i < 4096 → get_or limits.new i 0 ≡ identifier_limit (drop i names.now)) }
{
    let mut words: u16 = 1;
    for i in (0..names.len()).rev() {
        words = word_limit(names[i], words);
        limits[i % 4096] = identifier_limit(names[i], words);
    }
}

// 5a: a name is no simple identifier.
pub fn name_5(names: &[u8], limits: &[u16], n: Name) -> bool
    requires { (n.start < 4096) × Limits names.now limits.now }
    ensures { result ≡ not (rules.simple (part names.now n.start n.size)) }
{
    let size = text_of(names, n).len();
    let limit = limits[n.start as usize];
    !((1 <= size) & (size < limit as usize))
}

// 5a of an alias that may be absent.
fn alias_5(names: &[u8], limits: &[u16], n: Name) -> bool
    requires { (n.start < 4096) × Limits names.now limits.now }
    ensures { result ≡ (not (eqb n.size 0) && not (rules.simple (part names.now n.start n.size))) }
{
    (n.size != 0) & name_5(names, limits, n)
}

// 5b: a namespace is not 1 to 255 bytes of simple identifiers joined by dots.
fn namespace_5(s: &[u8]) -> bool
    ensures { result ≡ not (leb 1 (length s.now) && leb (length s.now) 255 && all (λ p. rules.simple p) (rules.dotted s.now)) }
{
    !((1 <= s.len()) & (s.len() <= 255) & is_dotted(s))
}

// Rule 5 of a record, by the limits of the image's name bytes.
#[tactic(auto, unfolding(csdl::specs::Form::rule5, csdl::specs::Form::name5a, csdl::specs::Form::alias5a, csdl::specs::Form::namespace5b, model_image::specs::Read::model_read, csdl::specs::Model::model_of))]
pub fn rule_5(model: &Model, limits: &[u16], rec: Record) -> bool
    requires { Limits model.now.names.now limits.now }
    ensures { result ≡ rules.rule5 (model_read model.now) rec }
{
    let names = model.names;
    match rec {
        Record::OfSchema(s) => namespace_5(model.namespace_text(s))
            | alias_5(names, limits, model.schema_alias(s)),
        Record::OfType(t) => name_5(names, limits, model.type_name(t)),
        Record::OfProperty(p) => name_5(names, limits, model.property_name(p)),
        Record::OfKey(k) => alias_5(names, limits, model.key_alias(k)),
        Record::OfConstraint(_) => false,
        Record::OfChild(h) => name_5(names, limits, model.child_name(h)),
        Record::OfBinding(_) => false,
        Record::OfSegment(g) => !model.segment_cast(g)
            & name_5(names, limits, model.segment_name(g)),
        Record::Nowhere => false,
    }
}
