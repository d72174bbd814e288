// Names of cards and jobs: 1 to 16 letters, digits, spaces and minuses, not all of them spaces.
ghost use Rattle.std.specs.Prelude.{◌≡◌, ◌≤◌, length};
ghost use Rattle.std.specs.Str.{bytes_eq};
ghost use Rattle.layout.specs.Names.{name_char, lawful_name, padded, name_of};

// A lawful name, padded with spaces. Two names are equal if they are equal padded.
#[derive(Clone, Copy, PartialEq, Eq, Debug)]
pub struct Name {
    bytes: [u8; 16],
}

impl Name {
    ghost use Rattle.layout.specs.NameEq.{same_name};
    ghost use Rattle.layout.specs.declared.names.Name.{Name};

    // The name of these bytes, if they make one. Like `NonZeroU8::new`: an error would say no more than `None`.
    pub fn new(text: &[u8]) -> Option<Name>
        ensures { result ≡ name_of text.now }
    {
        if !is_lawful(text) {
            return None;
        }
        Some(Name { bytes: pad(text) })
    }

    // The sixteen bytes that an entry or a label stores. They tell names apart.
    pub fn padded(&self) -> [u8; 16]
        ensures value { result ≡ self.now.bytes }
        ensures len { length result ≡ 16 }
        ensures tells { (other : Name) → same_name self.now other ≡ bytes_eq result other.bytes }
    {
        self.bytes
    }
}

// Whether a character may stand in a name. By the project's rule the ranges are cases of a match.
fn is_name_char(c: char) -> bool
    ensures { result ≡ name_char c }
{
    match c {
        'A'..='Z' | '0'..='9' | ' ' | '-' => true,
        _ => false,
    }
}

// Whether a byte may stand in a name.
pub fn is_name_byte(byte: u8) -> bool
    ensures { result ≡ name_char byte }
{
    is_name_char(char::from(byte))
}

// By the project's rule a loop over the bytes tests each. In one pass: a second one, by `any`, takes half as long again for a whole name.
fn is_lawful(name: &[u8]) -> bool
    ensures { result ≡ lawful_name name.now }
{
    if name.len() > 16 {
        return false;
    }
    let mut shown = false;
    for b in name {
        if !is_name_byte(*b) {
            return false;
        }
        if *b != b' ' {
            shown = true;
        }
    }
    shown
}

// At most sixteen bytes, with spaces behind them: no conversion of the library pads.
#[tactic(auto, unfolding(crate::specs::Names::padded))]
fn pad(name: &[u8]) -> [u8; 16]
    requires { length name.now ≤ 16 }
    ensures { result ≡ padded name.now }
{
    let mut bytes = [b' '; 16];
    bytes[0..name.len()].copy_from_slice(name);
    bytes
}
