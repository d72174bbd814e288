// Sectors for a number of bytes.
ghost use Rattle.std.specs.Prelude.{◌≡◌};
ghost use Rattle.layout.specs.Extents.{extent_of, Extent, size_of};

// The size of a job of so many bytes, if a job can be that long.
pub fn job_size(bytes: usize) -> Option<u16>
    ensures { result ≡ size_of bytes }
{
    u16::try_from(bytes).ok()
}

// The sectors that so many bytes take, and the bytes in the last of them: 512 in a full one, 0 where there is none.
// By the project's rule one function answers the pair.
pub fn extent(bytes: u16) -> (u8, u16)
    ensures value { result ≡ extent_of bytes }
    ensures told { Extent bytes result.0 result.1 }
{
    if bytes == 0 {
        return (0, 0);
    }
    (bytes.div_ceil(512) as u8, (bytes - 1) % 512 + 1)
}
