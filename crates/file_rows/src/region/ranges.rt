use enclosure_regions::Range;
use std::fmt;

/// The base register of a range followed by a blank, or nothing.
#[derive(Clone, Copy)]
struct BaseText(Option<u8>);

/// A range, which shows as its base register, if it has one, its offset and its length.
#[derive(Clone, Copy)]
pub struct RangeText(pub Range);

impl fmt::Display for BaseText {
    ghost use Rattle.std.specs.Prelude.{Some};
    ghost use Rattle.file_rows.specs.Ranges.{base_text};

    ghost output = { λ shown. Some (base_text shown.0) };

    fn fmt<W: fmt::Write>(&self, f: &mut fmt::Formatter<W>) -> fmt::Result {
        match self.0 {
            Some(base) => write!(f, "x{base} "),
            None => write!(f, ""),
        }
    }
}

impl fmt::Display for RangeText {
    ghost use Rattle.std.specs.Prelude.{Some};
    ghost use Rattle.file_rows.specs.Ranges.{range_text};

    ghost output = { λ shown. Some (range_text shown.0) };

    fn fmt<W: fmt::Write>(&self, f: &mut fmt::Formatter<W>) -> fmt::Result {
        let Range {
            base,
            offset,
            length,
        } = self.0;
        let base = BaseText(base);
        write!(f, "{base}{offset} {length}")
    }
}
