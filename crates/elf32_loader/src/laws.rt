ghost use Rattle.elf32_loader.specs.Programs.{FaultsHaveNoImage, ImagesAreUnique, MemoryIsLoaded, RestIsZero, WrittenAreImages};

/// Guest memory has at each address the byte that a load of the program file puts there, and 0 where no load stands.
/// It does nothing when it is called.
pub fn memory_is_what_is_loaded()
    ensures loaded { MemoryIsLoaded }
    ensures rest { RestIsZero }
{}

/// A program file gives no image where it has a first fault, and never two images. It does nothing when it is called.
pub fn files_give_one_image_or_a_fault()
    ensures fault { FaultsHaveNoImage }
    ensures image { ImagesAreUnique }
{}

/// The program file that [`write_image`](crate::write_image) writes for an image gives that image. It does nothing
/// when it is called.
pub fn written_files_give_their_images()
    ensures { WrittenAreImages }
{}
