// One chain of the list: its name, packed.
#[repr(C)]
#[derive(Clone, Copy)]
pub struct Chain {
    pub name: u64,
}
