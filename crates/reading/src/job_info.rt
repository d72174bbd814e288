// What load tells of a job, beside its bytes. Any byte may be a type, so it is no enum.
#[derive(Clone, Copy, PartialEq, Eq, Debug)]
pub struct JobInfo {
    pub size: u16,
    pub kind: u8,
    pub address: u16,
}
