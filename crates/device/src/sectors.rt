// Sectors as values: 512 bytes each.
ghost use Rattle.std.specs.Prelude.{◌≡◌};
ghost use Rattle.device.specs.Meaning.{zeros};

pub fn zero_sector() -> [u8; 512]
    ensures { result ≡ zeros 512 }
{
    [0; 512]
}
