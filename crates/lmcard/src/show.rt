// A label for a person to read.
use layout::Label;
use std::fmt;

// A label, a line for each thing that it says.
#[derive(Clone, Copy)]
pub(crate) struct Lines<'a>(pub(crate) &'a Label);

impl fmt::Display for Lines<'_> {
    fn fmt<W: fmt::Write>(&self, f: &mut fmt::Formatter<W>) -> fmt::Result {
        let label = self.0;
        writeln!(f, "  disk name      {}", Text(&label.name))?;
        writeln!(f, "  disk id        {}", Text(&label.id))?;
        writeln!(f, "  sectors (S)    {}", label.layout.sectors)?;
        writeln!(
            f,
            "  geometry       {} cylinders, {} sectors a track, {} heads",
            label.geometry.cylinders, label.geometry.sectors_per_track, label.geometry.heads
        )?;
        writeln!(f, "  entries (E)    {}", label.layout.entries)?;
        writeln!(f, "  data area (A)  from sector {}", label.layout.area)?;
        write!(f, "  slots (U)      {}", label.layout.slots)
    }
}

// A name or an id: what is not printable shows as a question mark, and trailing spaces are left out.
#[derive(Clone, Copy)]
struct Text<'a>(&'a [u8]);

impl fmt::Display for Text<'_> {
    fn fmt<W: fmt::Write>(&self, f: &mut fmt::Formatter<W>) -> fmt::Result {
        let kept = match self.0.iter().rposition(|b| *b != b' ') {
            Some(last) => &self.0[..=last],
            None => &[],
        };
        for &b in kept {
            f.write_char(match b {
                b' '..=b'~' => char::from(b),
                _ => '?',
            })?;
        }
        Ok(())
    }
}
