// The words that begin a command: spelled here, and matched where the rest is read. A table of functions would hide that what follows each word differs.
ghost use Rattle.std.specs.Prelude.{◌≡◌};
ghost use Rattle.job.specs.Keywords.{keyword};

#[derive(Clone, Copy)]
pub enum Keyword {
    Open,
    At,
    Principal,
    Statement,
    File,
    Strike,
    Book,
}

// The keyword that the text spells, if it spells one.
pub(crate) fn keyword_of(text: &[u8]) -> Option<Keyword>
    ensures { result ≡ keyword text.now }
{
    match text {
        b"open" => Some(Keyword::Open),
        b"at" => Some(Keyword::At),
        b"principal" => Some(Keyword::Principal),
        b"statement" => Some(Keyword::Statement),
        b"file" => Some(Keyword::File),
        b"strike" => Some(Keyword::Strike),
        b"book" => Some(Keyword::Book),
        _ => None,
    }
}
