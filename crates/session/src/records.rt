// The records of a sheet, one after the other.
ghost use Rattle.std.specs.Prelude.{◌≡◌, ◌≤◌, length};
ghost use Rattle.std.specs.Iterator.{YieldsFirstRef, item_count};
ghost use Rattle.session.specs.Walking.{records_of};

use super::Sheet;
use sheet::{body_count, body_length};
use std::marker::Model;

// The records that are left of a sheet: how many, where the length of the next one stands, and where it begins. A contract sees the list of them.
#[derive(Drop)]
pub struct Records<'a> {
    sheet: &'a [u8],
    left: usize,
    length_at: usize,
    record_at: usize,
}

impl<'a> Model for Records<'a> {
    ghost use Rattle.std.specs.Prelude.{ℕ, List};
    ghost use Rattle.sheet.specs.Sheets.{bodies_from};
    ghost use Rattle.session.specs.Walking.{Standing};

    ghost Value = { List (List ℕ) };

    ghost view = { λ r. bodies_from r.left r.sheet.now r.length_at r.record_at };

    ghost invariant = { λ r. Standing r.left r.sheet.now r.length_at r.record_at };
}

impl<'a> Iterator for Records<'a> {
    type Item = &'a [u8];

    ghost next_gives = { YieldsFirstRef (λ rest. rest) };

    ghost remaining = { item_count (λ rest. rest) };

    fn next(&mut self) -> Option<&'a [u8]> {
        self.left = self.left.checked_sub(1)?;
        let from = self.record_at;
        self.record_at += body_length(self.sheet, self.length_at);
        self.length_at += 4;
        Some(&self.sheet[from..self.record_at])
    }
}

impl<'a> Sheet<'a> {
    // All records: no sheet has more, since each has four bytes for its length.
    pub fn records(&self) -> Records<'a>
        ensures records { result ≡ records_of self.now }
        ensures few { length result ≤ 65535 }
    {
        Records {
            sheet: self.bytes,
            left: body_count(self.bytes) - 1,
            length_at: 6,
            record_at: self.records_from(),
        }
    }
}
