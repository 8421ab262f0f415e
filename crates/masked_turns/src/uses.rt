use flow_base::Point;

/// A turn looks at what may differ and has not crossed.
#[derive(Clone, Copy)]
pub enum SecretLook {
    /// One of the four bytes that are fetched from this address.
    Code { pc: u32 },
    /// The base register of a range, at the entry of this region: the register of the first such range.
    BaseRegister { region: u16, register: u8 },
}

/// A turn decides by bits that may differ and have not crossed: the mask that is left at this point.
#[derive(Clone, Copy)]
pub struct LeftBits {
    /// Where the turn decides.
    pub point: Point,
    /// The bits that are left of its mask.
    pub mask: u32,
}
