// Why an outcome was not noted.
ghost use Rattle.std.specs.Prelude.{◌≡◌, Some};
ghost use Rattle.books.specs.Words.{note_words};
ghost use Rattle.books.specs.declared.error.NoteError.TheVariants.{NoMemory};

use std::alloc::AllocError;
use std::error::Error;
use std::fmt;

// Want of memory, or a count that is at the end of its range.
#[derive(Clone, Copy, Debug, PartialEq, Eq)]
pub enum NoteError {
    NoMemory,
    Full,
}

impl fmt::Display for NoteError {
    ghost output = { λ e. Some (note_words e) };

    fn fmt<W: fmt::Write>(&self, f: &mut fmt::Formatter<W>) -> fmt::Result {
        f.write_str(match self {
            NoteError::NoMemory => "no memory for the books",
            NoteError::Full => "a count of the books is full",
        })
    }
}

impl Error for NoteError {}

impl From<AllocError> for NoteError {
    ghost from_gives = { λ _ r. r ≡ NoMemory };

    fn from(_: AllocError) -> NoteError {
        NoteError::NoMemory
    }
}
