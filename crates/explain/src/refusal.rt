// A refusal by rules 3 to 19 in words: the record, the paths that have it if it is a segment, the rule and the section.
use crate::description::{Subject, record};
use crate::paths::heading;
use crate::print::{Output, line_end, text};
use crate::rulebook;
use csdl::{PathKind, Record, Refusal};
use path_kinds::kinds::{KINDS, holder_count, path_of};

pub fn explain(rt: &impl Output, of: &Subject, refusal: Refusal) {
    text(rt, b"record   ");
    if refusal.rule < 6 {
        without_names(rt, of, refusal.place);
    } else {
        with_names(rt, of, refusal.place);
    }
    rulebook::explain(rt, refusal.rule);
}

// The record at fault while rule 3, 4 or 5 is broken.
fn without_names(rt: &impl Output, of: &Subject, place: u16) {
    let mut nameless = *of;
    nameless.names = b"";
    record(rt, &nameless, place);
    text(rt, b"\nnames    not read while rule 3, 4 or 5 is broken\n");
}

// The same where they are unbroken, so that what is printed of names is letters, digits, underscores and dots.
fn with_names(rt: &impl Output, of: &Subject, place: u16) {
    record(rt, of, place);
    line_end(rt);
    if let Record::OfSegment(g) = of.places.record_at(place) {
        paths_with(rt, of, g);
    }
}

// The paths that have a segment: none, or the first two.
fn paths_with(rt: &impl Output, of: &Subject, g: u16) {
    let mut left: u16 = 2;
    for kind in KINDS {
        left = kind_with(rt, of, kind, g, left);
    }
    if left == 2 {
        text(rt, b"path     none\n");
    }
}

// The same of one kind, `left` at most; answers how many are left.
fn kind_with(rt: &impl Output, of: &Subject, kind: PathKind, g: u16, left: u16) -> u16 {
    let mut more = left;
    for r in 0..holder_count(&of.model, kind) {
        more = path_with(rt, of, kind, r, g, more);
    }
    more
}

fn path_with(rt: &impl Output, of: &Subject, kind: PathKind, r: u16, g: u16, left: u16) -> u16 {
    if left == 0 {
        return 0;
    }
    let run = path_of(&of.model, kind, r);
    if (g < run.first) | (run.first + run.count <= g) {
        return left;
    }
    text(rt, b"path     ");
    heading(rt, of, kind, r);
    line_end(rt);
    left - 1
}
