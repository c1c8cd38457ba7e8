// The paths of an accepted model: a heading for each and below it a line for each of its segments, with the segment's place, its name,
// or that of its type for a cast, and the property or cast to which it resolves.
ghost use Rattle.std.specs.Prelude.{◌<◌};

use crate::description::{Subject, in_words};
use crate::paths::heading;
use crate::print::{Output, column, line_end, right, text};
use csdl::{PathKind, Record, Run};
use path_kinds::kinds::{holder_count, path_of};

type Resolution = [u8; sheet::RESOLUTION_SIZE];

// The paths in image order: partners, keys, then the two paths of each constraint and of each binding.
pub fn paths(rt: &impl Output, of: &Subject, resolution: &Resolution) {
    paths_of(rt, of, resolution, &[PathKind::Partner]);
    paths_of(rt, of, resolution, &[PathKind::Key]);
    paths_of(
        rt,
        of,
        resolution,
        &[PathKind::Dependent, PathKind::Principal],
    );
    paths_of(rt, of, resolution, &[PathKind::Binding, PathKind::Target]);
}

// For each record its paths of the kinds, which are those of one table.
fn paths_of(rt: &impl Output, of: &Subject, resolution: &Resolution, kinds: &[PathKind]) {
    let Some(first) = kinds.first() else {
        return;
    };
    for r in 0..holder_count(&of.model, *first) {
        for kind in kinds {
            path(rt, of, resolution, *kind, r);
        }
    }
}

fn path(rt: &impl Output, of: &Subject, resolution: &Resolution, kind: PathKind, r: u16) {
    let run = path_of(&of.model, kind, r);
    if run.count != 0 {
        heading(rt, of, kind, r);
        line_end(rt);
        segments(rt, of, resolution, run);
    }
}

fn segments(rt: &impl Output, of: &Subject, resolution: &Resolution, run: Run)
    requires { (run.first < 2048) × (run.count < 16) }
{
    for g in run.first..run.first + run.count {
        segment(rt, of, g, packed::number_at(resolution, g));
    }
}

// A segment and what it resolves to: a property's number, or 32768 and that of a cast's type.
fn segment(rt: &impl Output, of: &Subject, g: u16, resolved: u16) {
    right(rt, of.places.segments.wrapping_add(g));
    if resolved < 32768 {
        property(rt, of, resolved);
    } else {
        cast(rt, of, resolved - 32768);
    }
    line_end(rt);
}

// A name and the property that it means, which has that name, as `No   property 2 Stop/No`.
fn property(rt: &impl Output, of: &Subject, p: u16) {
    column(rt, of.model.property_text(p));
    in_words(rt, of, Record::OfProperty(p));
}

// A cast and its type, as `Stop   cast to entity type 1 Stop`.
fn cast(rt: &impl Output, of: &Subject, t: u16) {
    column(rt, of.model.type_text(t));
    text(rt, b"cast to ");
    in_words(rt, of, Record::OfType(t));
}
