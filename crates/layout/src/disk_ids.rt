// Disk ids: a letter, a digit, a letter and a digit.
ghost use Rattle.std.specs.Prelude.{◌≡◌, length};
ghost use Rattle.layout.specs.DiskIds.{id_of};

#[derive(Clone, Copy, PartialEq, Eq, Debug)]
pub struct DiskId {
    bytes: [u8; 4],
}

impl DiskId {
    // The id of these bytes, if they make one. Like `NonZeroU8::new`: an error would say no more than `None`.
    pub fn new(text: &[u8]) -> Option<DiskId>
        ensures { result ≡ id_of text.now }
    {
        match *text {
            [
                a @ b'A'..=b'Z',
                b @ b'0'..=b'9',
                c @ b'A'..=b'Z',
                d @ b'0'..=b'9',
            ] => Some(DiskId {
                bytes: [a, b, c, d],
            }),
            _ => None,
        }
    }

    pub fn bytes(&self) -> [u8; 4]
        ensures value { result ≡ self.now.bytes }
        ensures len { length result ≡ 4 }
    {
        self.bytes
    }
}
