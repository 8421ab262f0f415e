ghost use Rattle.std.specs.Prelude.{◌≡◌};
ghost use Rattle.flow_base.specs.Guests.{is_inside};

/// Whether each of `length` bytes from an address on is one of guest memory, whose lowest address is `base`. A range
/// whose end would pass 2^32 is not inside; a range of no bytes is inside wherever it stands.
pub fn inside(base: u32, address: u32, length: u32) -> bool
    ensures { result ≡ is_inside base address length }
{
    flow_base::is_inside(base, address, length)
}
