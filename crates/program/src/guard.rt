// A line that is being written: put back on every way out, unless it is to stay.
ghost use Rattle.std.specs.Prelude.{◌≡◌, unwrap_or};

use orders::heard::Fields;

pub struct Guard<'a> {
    pub line: &'a mut Fields,
    // What is put back; none once the line is to stay as it is written.
    pub old: Option<Fields>,
}

impl Drop for Guard<'_> {
    fn drop(self)
        ensures { self.exit.0.now ≡ unwrap_or self.entry.old self.entry.line.now }
    {
        if let Some(old) = self.old {
            *self.line = old;
        }
        let Guard { line: _, old: _ } = self;
    }
}
