// What can go wrong, in words: what stood in the way, and what was left.
use refusals::Refusal;
use std::alloc::AllocError;
use std::io;
use thiserror::Error;

#[derive(Debug, Drop, Error)]
pub(crate) enum Failure {
    // the words of the command line make no command
    #[error("the commands are\n  lmcard new IMAGE SECTORS NAME ID    make and format a card image\n  lmcard info IMAGE                   print the card's label\n  lmcard demo                         show it all on a card in memory")]
    Usage,
    // a number of sectors that no card has
    #[error("SECTORS is a number from 1 to 268435456; nothing was made")]
    Sectors,
    // the card or its device refused, and nothing was changed
    #[error("{0}; nothing was changed")]
    Refused(#[from] Refusal),
    #[error("there is such a file already; it was left as it is")]
    Exists,
    // there is a file where the changed image would be written first
    #[error("the file of that name with .new behind it is in the way; nothing was changed")]
    Beside,
    // the length of a file that is no card image
    #[error("a file of {0} bytes is no card image, which has 512 for each sector; it was left as it is")]
    NoImage(usize),
    #[error("there is not enough memory; nothing was changed")]
    Memory(#[from] AllocError),
    #[error("{0}; nothing was changed")]
    File(#[from] io::Error),
}
