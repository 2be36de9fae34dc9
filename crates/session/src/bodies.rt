// The bodies of a sheet: body 0 has the settings and the template, each other one is a record.
ghost use Rattle.std.specs.Prelude.{◌≡◌, ◌+◌, ◌≤◌, true, length};
ghost use Rattle.sheet.specs.Sheets.{is_sheet, contents_end};
ghost use Rattle.session.specs.Walking.{settings_in, template_in, records_from};

use super::Sheet;
use sheet::{body_count, body_length};

impl<'a> Sheet<'a> {
    // Where body 0 begins.
    fn contents_end(&self) -> usize
        ensures place { result ≡ contents_end self.now }
        ensures sheet { is_sheet self.now ≡ true }
    {
        2 + 4 * body_count(self.bytes)
    }

    // Where the first record begins.
    pub(crate) fn records_from(&self) -> usize
        ensures { result ≡ records_from self.now }
    {
        self.contents_end() + body_length(self.bytes, 2)
    }

    // The settings byte: the first of body 0.
    pub(crate) fn settings(&self) -> u8
        ensures byte { result ≡ settings_in self.now }
        ensures sheet { is_sheet self.now ≡ true }
    {
        self.bytes[self.contents_end()]
    }

    // Where the template stands: it is the rest of body 0.
    pub fn template_at(&self) -> (usize, usize)
        ensures places { result ≡ (contents_end self.now + 1, records_from self.now) }
        ensures within { (contents_end self.now + 1 ≤ records_from self.now) × (records_from self.now ≤ length self.now) }
    {
        (self.contents_end() + 1, self.records_from())
    }

    pub(crate) fn template(&self) -> &'a [u8]
        ensures { result.now ≡ template_in self.now }
    {
        let bytes = self.bytes;
        let (from, to) = self.template_at();
        &bytes[from..to]
    }
}
