// The open job as the program keeps it.
ghost use Rattle.std.specs.Prelude.{◌≡◌, ◌+◌, ◌*◌, ◌<◌, ◌≤◌, length};
ghost use Rattle.plans.specs.Memory.{job_length};

#[derive(Clone, Copy)]
pub struct OpenJob {
    pub slot: u16,
    // its name, padded
    pub name: [u8; 16],
    // full sectors written
    pub full: u8,
    // bytes gathered behind them, at the front of `gathered` (a vector of fixed room is not Copy, as this is)
    pub filled: usize,
    pub gathered: [u8; 512],
    // bytes put since the open or the last accepted commit
    pub waiting: u32,
    ghost short: { filled < 512 },
    ghost few: { 512 * full + filled ≤ 65535 },
    ghost some: { waiting ≤ 512 * full + filled },
}

impl OpenJob {
    ghost use Rattle.volume.specs.Kept.{open_job};

    // Its bytes, committed or not.
    pub fn size(&self) -> u16
        ensures { result ≡ job_length (open_job self.now) }
    {
        512 * u16::from(self.full) + self.filled as u16
    }
}
