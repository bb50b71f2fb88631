// The session: the export table, the link to the client, and the pending URBs.
use exports::device::Table;
use links::link::Link;
use pending::list::Pending;

#[repr(C)]
#[derive(Clone, Copy)]
pub struct Session {
    pub(crate) table: Table,
    pub(crate) link: Link,
    pub(crate) pending: Pending,
}
