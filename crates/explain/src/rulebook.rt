// The rules in plain words, each with the sections of the standard that it condenses (`docs/RULES.md` has them clause by clause). A
// rule's text stands here and nowhere else: to add a rule, write its arm. The lines are as they are printed, at most 100 bytes each; a
// literal costs proof time by its number more than by its length, so a rule is one literal.

use crate::print::{Output, text};

// Prints a rule and its sections.
pub fn explain(rt: &impl Output, rule: u16) {
    if rule <= 4 {
        of_image(rt, rule);
    } else if rule <= 7 {
        of_names(rt, rule);
    } else if rule <= 12 {
        of_types(rt, rule);
    } else if rule <= 16 {
        of_paths(rt, rule);
    } else {
        of_bindings(rt, rule);
    }
}

// Rules 1 to 4: the image and the fields of its records.
fn of_image(rt: &impl Output, rule: u16) {
    match rule {
        1 => text(
            rt,
            b"\
rule 1   an image has the 20 bytes of a header, which begins with the version 0402 (hexadecimal);
         each count is within its limit, and there is at least one schema;
         the length is that of the header, the tables and the name bytes together
section  none: set by document 01
",
        ),
        2 => text(
            rt,
            b"\
rule 2   the buffer for the resolution has at least two bytes for each segment
section  none: set by document 01
",
        ),
        3 => text(
            rt,
            b"\
rule 3   every spare bit of a record is 0
section  none: set by document 01
",
        ),
        4 => text(
            rt,
            b"\
rule 4   every number is below the count of its table;
         every name and path lies within its table;
         an absent name or path starts at 0, and stands only where one may be absent;
         a kind is at most 3, an underlying type at most 17;
         a type reference is a type's number, or 64 + the code of a primitive type
section  none: set by document 01
",
        ),
        _ => {}
    }
}

// Rules 5 to 7: names.
fn of_names(rt: &impl Output, rule: u16) {
    match rule {
        5 => text(
            rt,
            b"\
rule 5   a name is 1 to 128 ASCII letters, digits and underscores, and does not begin with a digit;
         a namespace is such names joined by dots, 1 to 255 bytes
section  CSDL XML 4.02: 3.1, 15.1, 15.2; ASCII and the 255 bytes are set by document 01
",
        ),
        6 => text(
            rt,
            b"\
rule 6   a namespace or alias is not Edm, odata, System or Transient;
         it is neither its schema's other name nor a namespace or alias of an earlier schema
section  CSDL XML 4.02: 5, 5.1
",
        ),
        7 => text(
            rt,
            b"\
rule 7   a type does not have the name of an earlier type of its schema;
         an entity set or singleton does not have the name of an earlier one
section  CSDL XML 4.02: 3.1, 5, 6, 9, 10, 11 for types, 13 for entity sets and singletons
",
        ),
        _ => {}
    }
}

// Rules 8 to 12: types and their properties.
fn of_types(rt: &impl Output, rule: u16) {
    match rule {
        8 => text(
            rt,
            b"\
rule 8   a base is of the type's own kind;
         an enumeration or type definition has no base and no flag (abstract, open, media);
         a complex type has no media;
         an abstract entity type has no base that is not abstract;
         a type is open if its base is, and has media if its base has;
         a structured type has no underlying type, a type definition has one;
         an enumeration has the underlying type Byte, SByte, Int16, Int32 or Int64
section  CSDL XML 4.02: 6.1 to 6.4, 9, 9.1, 9.3, 10, 10.1, 11, 11.1; set by document 01: no underlying
           type of a structured type, and that an enumeration states its own
",
        ),
        9 => text(
            rt,
            b"\
rule 9   a type is not its own ancestor (ancestors are its base, that base's base, and so on)
section  CSDL XML 4.02: 6.1, 9.1
",
        ),
        10 => text(
            rt,
            b"\
rule 10  the owner of a property is an entity or complex type;
         a navigation property goes to an entity type;
         a navigation property that is a collection is not nullable;
         a navigation property of a complex type has no partner;
         a property that does not navigate is of no entity type, contains nothing, has no partner;
         a collection is not of Stream, nor of a type definition of it
section  CSDL XML 4.02: 3.3, 7, 7.1, 8, 8.1 to 8.4
",
        ),
        11 => text(
            rt,
            b"\
rule 11  a property does not have the name of an earlier property of its owner;
         it has the name of an ancestor's property only if both or neither navigate, its type
           derives from that one's, and the two agree in collection, nullable and contains
section  CSDL XML 4.02: 6, 7, 8, 9; that the two agree is set by document 01
",
        ),
        12 => text(
            rt,
            b"\
rule 12  a type does not reach itself in one or more steps;
         a step goes to the type of a single, not nullable, complex or containment property of the
           type or of an ancestor
section  CSDL XML 4.02: 3.2, 7.1, 8.1
",
        ),
        _ => {}
    }
}

// Rules 13 to 16: segments, keys and constraints.
fn of_paths(rt: &impl Output, rule: u16) {
    match rule {
        13 => text(
            rt,
            b"\
rule 13  every segment is in exactly one path
section  none: set by document 01
",
        ),
        14 => text(
            rt,
            b"\
rule 14  every segment resolves;
         a name needs a structured type that has a property of that name, its own or an ancestor's;
         a cast needs a structured type that is the type reached so far or derives from it
section  CSDL XML 4.02: 14.4.1.1, for paths by 6.5, 8.3, 8.5, 13.4.1 and 13.4.2; that another cast is a
           fault is set by document 01
",
        ),
        15 => text(
            rt,
            b"\
rule 15  a key is of an entity type, none of whose ancestors has keys;
         its path has no cast;
         each step but the last is single, not nullable and complex;
         the last step is single, not nullable, and of an enumeration or of a primitive type (or a
           type definition of one) other than Binary, Double, Single and Stream;
         it has an alias exactly if it has more than one segment;
         its alias, or else its one name, is not that of an earlier key of the owner;
         its alias is not the name of a property of the owner or of an ancestor
section  CSDL XML 4.02: 6.5, 9
",
        ),
        16 => text(
            rt,
            b"\
rule 16  a constraint is of a single navigation property;
         its paths have no cast;
         each step but the last is single and complex, the last is structural;
         the two ends agree in type and in collection, or both are single and complex;
         the dependent end is nullable exactly if the navigation property or the principal end is
section  CSDL XML 4.02: 8.5; that the last step is structural is set by document 01
",
        ),
        _ => {}
    }
}

// Rules 17 to 19: partners, entity sets, singletons and bindings.
fn of_bindings(rt: &impl Output, rule: u16) {
    match rule {
        17 => text(
            rt,
            b"\
rule 17  the last step of a partner path, and no earlier one, is a navigation property: the partner;
         the partner goes to the owner of this property or to an ancestor of the owner;
         the partner has no partner other than this property;
         if this property contains, the partner is nullable within one hierarchy (the same topmost
           type), and not nullable across two;
         if the partner contains, no other property of the owner or an ancestor has such a partner
section  CSDL XML 4.02: 8.3, 8.4
",
        ),
        18 => text(
            rt,
            b"\
rule 18  an entity set or contained collection is of a type with a key, its own or an ancestor's;
         an entity set or singleton is of an entity type;
         an entity set is not nullable
section  CSDL XML 4.02: 6.5, 8.1, 8.4, 13.2, 13.3
",
        ),
        19 => text(
            rt,
            b"\
rule 19  a binding path has a name;
         its last name (casts may follow) is a navigation property without containment;
         no earlier name is one;
         no earlier binding of the child has the same segments;
         a target path is not under an entity set, and has no cast;
         its steps are single complex or single containment, the last is any containment;
         of the types where the two paths end, one is the other or derives from it
section  CSDL XML 4.02: 8.4, 13.4.1, 13.4.2; set by document 01: no cast in a target path, and that the
           ends are so related
",
        ),
        _ => {}
    }
}
