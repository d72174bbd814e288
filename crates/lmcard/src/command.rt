// The words of the command line.
ghost use Rattle.std.specs.Prelude.{◌≤◌, IfOk};

use crate::failure::Failure;
use stores::is_sparse_size;

#[derive(Clone, Copy)]
pub(crate) enum Command<'a> {
    New {
        image: &'a str,
        sectors: u32,
        name: &'a str,
        id: &'a str,
    },
    Info {
        image: &'a str,
    },
    Demo,
}

impl<'a> Command<'a> {
    pub(crate) fn parse(words: &'a [String]) -> Result<Command<'a>, Failure> {
        let (verb, rest) = words.split_first().ok_or(Failure::Usage)?;
        match (verb.as_str(), rest) {
            ("new", [image, sectors, name, id]) => Ok(Command::New {
                image: image.as_str(),
                sectors: sectors_in(sectors.as_str())?,
                name: name.as_str(),
                id: id.as_str(),
            }),
            ("info", [image]) => Ok(Command::Info {
                image: image.as_str(),
            }),
            ("demo", []) => Ok(Command::Demo),
            _ => Err(Failure::Usage),
        }
    }
}

// A number of sectors that a device can have.
fn sectors_in(word: &str) -> Result<u32, Failure>
    ensures { IfOk result (λ n. (1 ≤ n) × (n ≤ 268435456)) }
{
    word.parse::<u32>()
        .ok()
        .filter(|n| is_sparse_size(*n))
        .ok_or(Failure::Sectors)
}
