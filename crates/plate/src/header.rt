// What a plate knows of itself besides its tables.
ghost use Rattle.std.specs.Prelude.{◌≡◌};

use board::Size;

/// The plate's size, and for each group whether its map was measured after the last accepted edit: two flags with names, as plain as an
/// enum of four states. A plate hands none out, only a `HeaderRef`, so that no second header can call an old map current.
#[derive(Clone, Copy)]
pub struct Header {
    pub(crate) size: Size,
    pub(crate) first: bool,
    pub(crate) second: bool,
}

/// A header as it is lent: it is read by while the plate stays as it is, and it does not come out as a value.
#[derive(Clone, Copy)]
pub struct HeaderRef<'a> {
    pub(crate) header: &'a Header,
}

/// A plate that can be edited. It moves and is never copied.
#[derive(Drop)]
pub struct Draft {
    pub(crate) header: Header,
}

/// A plate that can be read only. It moves and is never copied, and no edit and no measuring takes it.
#[derive(Drop)]
pub struct Sealed {
    pub(crate) header: Header,
}

impl Draft {
    /// The size that it was opened with.
    pub fn size(&self) -> Size
        ensures { result ≡ self.now.header.size }
    {
        self.header.size
    }
}

impl Sealed {
    /// The size that it was opened with.
    pub fn size(&self) -> Size
        ensures { result ≡ self.now.header.size }
    {
        self.header.size
    }
}
