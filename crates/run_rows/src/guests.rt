//! The guest of a row.

use crate::files::{cut_of, image_of, regions_of};
use crate::rows::Row;
use crate::secrets::{Secrets, secrets_of};
use cut_file::Cut;
use elf32_loader::Image;
use enclosure_regions::Regions;
use flow_base::Bytes;

/// What the files of a row hold; None of one that is not there or malformed.
#[derive(Drop)]
pub struct Held {
    image: Option<Image>,
    regions: Option<Regions>,
    cut: Option<Cut>,
    public: Bytes,
    secrets: Secrets,
}

/// A program with its regions and a cut, an empty public input, and secrets.
#[derive(Clone, Copy)]
pub struct Guest<'a> {
    pub image: &'a Image,
    pub regions: &'a Regions,
    pub cut: &'a Cut,
    pub public: &'a Bytes,
    pub secrets: &'a Secrets,
}

impl Held {
    /// What the files hold that a row names.
    pub fn new(rt: &HostRuntime, row: &Row<'_>) -> Held {
        Held {
            image: image_of(rt, row.program),
            regions: regions_of(rt, row.regions),
            cut: cut_of(rt, row.cut),
            public: Bytes::new(rt.alloc()),
            secrets: secrets_of(rt, row.secrets),
        }
    }

    /// The guest of these files.
    pub fn guest(&self) -> Option<Guest<'_>> {
        match (&self.image, &self.regions, &self.cut) {
            (Some(image), Some(regions), Some(cut)) => Some(Guest {
                image,
                regions,
                cut,
                public: &self.public,
                secrets: &self.secrets,
            }),
            _ => None,
        }
    }
}
