use elf32_loader::Image;
use enclosure_regions::Regions;
use flow_base::Bytes;
use transfer_rules::RuleBook;

/// What the runs of a measurement share: all but the secret.
#[derive(Clone, Copy)]
pub struct Setup<'a> {
    /// The program.
    pub image: &'a Image,
    /// Its public input.
    pub public: &'a Bytes,
    /// Its regions.
    pub regions: &'a Regions,
    /// The mask rules.
    pub book: &'a RuleBook,
    /// The limit of turns.
    pub turns: u32,
}
