// The members as their image has them: the table of records, and the name bytes. The table is not larger than its limit.
ghost use Rattle.enumeration_members.specs.Limits.{FewMembers};

#[derive(Clone, Copy)]
pub(crate) struct Members<'a> {
    pub table: &'a [u8],
    pub names: &'a [u8],
    pub ghost few: { FewMembers table.now },
}
