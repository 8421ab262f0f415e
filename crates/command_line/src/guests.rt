/// The words that name a guest.
#[derive(Clone, Copy)]
pub struct GuestWords<'a> {
    /// The name of the program file.
    pub program: &'a str,
    /// The name of the file of the public input.
    pub public_input: &'a str,
    /// The name of the region file, where one is named.
    pub regions: Option<&'a str>,
}
