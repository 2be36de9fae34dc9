// Reading the template of a sheet, and what the lines of its records are made by.
ghost use Rattle.std.specs.Prelude.{◌≡◌, ◌≤◌, length};
ghost use Rattle.answer.specs.Maker.{IsRead};
ghost use Rattle.session.specs.Walking.{opening, tell_opened, OpenedKeeps, template_in, maker_in};

use super::Sheet;
use answer::Reading;
use refusals::Refusal;
use segments::Cell;
use settings::edition_of;
use template::parse;

impl<'a> Sheet<'a> {
    // The refusal of the template, or its segments in the pool.
    pub fn open(&self, cells: &mut [Cell]) -> Result<usize, Refusal>
        requires { 64 ≤ length cells.old }
        ensures told { tell_opened result cells.new ≡ opening self.now }
        ensures keeps { OpenedKeeps self.now cells.new result }
    {
        parse(edition_of(self.settings()), self.template(), cells)
    }

    // What the lines of the records are made by: the template was read into n segments.
    pub fn reading(&self, cells: &'a [Cell], n: usize) -> Reading<'a>
        requires { IsRead (template_in self.now) cells.now n }
        ensures { result ≡ maker_in self.now cells.now n }
    {
        Reading::new(self.settings(), self.template(), cells, n)
    }
}
