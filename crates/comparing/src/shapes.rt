// What the compared sheets are like.
ghost use Rattle.std.specs.Prelude.{◌≡◌, ◌-◌, ◌/◌, ◌&&◌, nat_lt};

use crate::tally::Tally;
use std::fmt;

// How many sheets were compared, and how many of these had several running orders, a block, or a wanting fact.
#[derive(Clone, Copy, Debug, PartialEq, Eq)]
pub struct Shapes {
    pub sheets: u32,
    pub loose: u32,
    pub grouped: u32,
    pub wanting: u32,
}

// What one sheet is like.
#[derive(Clone, Copy)]
pub struct Shape {
    pub is_loose: bool,
    pub is_grouped: bool,
    pub is_wanting: bool,
}

impl Tally for Shapes {
    type Found = Shape;

    ghost counted = { λ shapes. shapes.sheets };

    fn none() -> Self {
        Shapes {
            sheets: 0,
            loose: 0,
            grouped: 0,
            wanting: 0,
        }
    }

    fn add(&mut self, shape: Shape) {
        self.sheets += 1;
        self.loose = self.loose.saturating_add(u32::from(shape.is_loose));
        self.grouped = self.grouped.saturating_add(u32::from(shape.is_grouped));
        self.wanting = self.wanting.saturating_add(u32::from(shape.is_wanting));
    }
}

impl Shapes {
    // Whether more than a quarter had several running orders, a block, a wanting fact, and none: a comparison of sheets that
    // permit one order, or that are all good, would show little.
    pub fn are_varied(&self) -> bool
        ensures { result ≡ (nat_lt (self.now.sheets / 4) self.now.loose
            && (nat_lt (self.now.sheets / 4) self.now.grouped
            && (nat_lt (self.now.sheets / 4) self.now.wanting
            && nat_lt (self.now.sheets / 4) (self.now.sheets - self.now.wanting)))) }
    {
        let quarter = self.sheets / 4;
        self.loose > quarter
            && self.grouped > quarter
            && self.wanting > quarter
            && self.sheets.saturating_sub(self.wanting) > quarter
    }
}

impl fmt::Display for Shapes {
    fn fmt<W: fmt::Write>(&self, f: &mut fmt::Formatter<W>) -> fmt::Result {
        let sheets = self.sheets;
        let varied = self.are_varied();
        writeln!(
            f,
            "{sheets} sheets compared with all their running orders: no difference"
        )?;
        write!(
            f,
            "a quarter or more with several orders, with blocks, with a wanting fact, and with none: {varied}"
        )
    }
}
