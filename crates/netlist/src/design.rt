// Design memory as it is lent: the five tables, and the counts of the session card. What is found in the names or in the
// strings is borrowed from them alone, so that names, strings and words are lent for lifetimes of their own.
#[derive(Clone, Copy)]
pub struct Design<'n, 's, 't> {
    pub names: &'n [u8],
    pub strings: &'s [u8],
    pub bits: &'t [u32],
    pub wires: &'t [u32],
    pub rows: &'t [u32],
    // Renames that stand, and bytes of names that are used.
    pub renames: u32,
    pub room: u32,
}
