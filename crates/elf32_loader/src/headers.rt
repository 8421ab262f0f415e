/// A program header, without p_paddr, p_flags and p_align.
#[derive(Clone, Copy)]
pub struct Header {
    /// The field p_type.
    pub kind: u32,
    /// The field p_offset: where its bytes stand in the file.
    pub offset: u32,
    /// The field p_vaddr: where they stand in memory.
    pub address: u32,
    /// The field p_filesz: how many there are.
    pub file_size: u32,
    /// The field p_memsz: how many bytes of memory it takes.
    pub memory_size: u32,
}
