// The reader of sheets.
ghost use Rattle.std.specs.Prelude.{◌≤◌, length};

/// A sheet with the place up to which it is read, and the number of lines read whole.
/// It holds the caller's bytes and copies none. The place stands beside the whole sheet, since what is promised of a reader speaks of it.
#[derive(Drop)]
pub struct SheetReader<'a> {
    pub(crate) sheet: &'a [u8],
    pub(crate) place: usize,
    pub(crate) line: usize,
    ghost within: { place ≤ length sheet.now },
    ghost lines: { line ≤ place },
}
