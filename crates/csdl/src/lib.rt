// Runs of records, the records, the kinds of path, of type and of slot, and what the calls answer, as the definitions in specs/ name them.
#![tactic(auto)]

// A path, and any other run of records of a table: the first, and how many; count 0 means absent.
#[derive(Clone, Copy, PartialEq, Eq)]
pub struct Run {
    pub first: u16,
    pub count: u16,
}

// The version of every image, 4.02.
pub const VERSION: u16 = 0x0402;

// Where a place lies: the table and the number of its record, or past the last record.
#[derive(Clone, Copy, PartialEq, Eq)]
pub enum Record {
    OfSchema(u16),
    OfType(u16),
    OfProperty(u16),
    OfKey(u16),
    OfConstraint(u16),
    OfChild(u16),
    OfBinding(u16),
    OfSegment(u16),
    Nowhere,
}

// The six kinds of path, by what holds one.
#[derive(Clone, Copy, PartialEq, Eq)]
pub enum PathKind {
    Partner,
    Key,
    Dependent,
    Principal,
    Binding,
    Target,
}

// A record that holds a path of the kind.
#[derive(Clone, Copy, PartialEq, Eq)]
pub struct Holder {
    pub kind: PathKind,
    pub number: u16,
}

// Where a place of an instance lies.
#[derive(Clone, Copy, PartialEq, Eq)]
pub enum InstanceRecord {
    OfNode(u16),
    OfSlot(u16),
    OfItem(u16),
    Outside,
}

// The kinds of type.
#[derive(Clone, Copy, PartialEq, Eq)]
pub enum TypeKind {
    Entity,
    Complex,
    Enumeration,
    Definition,
}

// What a slot holds: nothing, one item, a run of items.
#[derive(Clone, Copy, PartialEq, Eq)]
pub enum SlotState {
    Null,
    Single,
    Collection,
}

// Why a call refuses: the number of the first broken rule, and the lowest place that breaks it.
#[derive(Clone, Copy, PartialEq, Eq)]
pub struct Refusal {
    pub rule: u16,
    pub place: u16,
}

// What a walk reports: how many results it has, and how many slots it opened.
#[derive(Clone, Copy, PartialEq, Eq)]
pub struct Walked {
    pub results: u16,
    pub opened: u16,
}
