// Bad input for format and the label.
#[cfg(test)]
mod tests {
    use device::Geometry;
    use formatting::{format, read_label};
    use refusals::Refusal;
    use std::test::Fail;
    use stores::ImageDevice;

    const SHAPE: Geometry = Geometry {
        cylinders: 0,
        sectors_per_track: 32,
        heads: 16,
    };

    // Whether a small card is formatted, or the number of the refusal.
    fn formatted(bytes: &mut [u8], name: &[u8], id: &[u8]) -> Result<(), u8> {
        let mut card = ImageDevice::new(bytes, SHAPE);
        format(&mut card, name, id)
            .map(|_| ())
            .map_err(|refusal| refusal.number())
    }

    // The offset at which a label is refused, none where it is read.
    fn refused_at(bytes: &mut [u8]) -> Option<u16> {
        let mut card = ImageDevice::new(bytes, SHAPE);
        match read_label(&mut card) {
            Err(Refusal::Field(offset)) => Some(offset),
            _ => None,
        }
    }

    // Turns the highest bit of a byte, which no field that is checked survives.
    fn spoil(bytes: &mut [u8], at: usize) {
        if let Some(byte) = bytes.get_mut(at) {
            *byte ^= 0x80;
        }
    }

    #[test]
    fn names(rt: HostRuntime) -> Result<(), Fail> {
        let mut bytes = vec![in rt.alloc(); 0u8; 66_560]?;
        assert_eq!(rt; formatted(&mut bytes, b"A", b"A0Z9"), Ok(()));
        assert_eq!(rt; formatted(&mut bytes, b"A-Z 0-9 ABCDEFGH", b"A0Z9"), Ok(()));
        assert_eq!(rt; formatted(&mut bytes, b"", b"A0Z9"), Err(1));
        assert_eq!(rt; formatted(&mut bytes, b"    ", b"A0Z9"), Err(1));
        assert_eq!(rt;
            formatted(&mut bytes, b"ABCDEFGHIJKLMNOPQ", b"A0Z9"),
            Err(1)
        );
        assert_eq!(rt; formatted(&mut bytes, b"lower", b"A0Z9"), Err(1));
        assert_eq!(rt; formatted(&mut bytes, b"A_B", b"A0Z9"), Err(1));
        assert_eq!(rt; formatted(&mut bytes, b"lower", b"9Z0A"), Err(1));
        Ok(())
    }

    #[test]
    fn ids(rt: HostRuntime) -> Result<(), Fail> {
        let mut bytes = vec![in rt.alloc(); 0u8; 66_560]?;
        assert_eq!(rt; formatted(&mut bytes, b"A", b"0AZ9"), Err(2));
        assert_eq!(rt; formatted(&mut bytes, b"A", b"A0Z"), Err(2));
        assert_eq!(rt; formatted(&mut bytes, b"A", b"A0Z99"), Err(2));
        assert_eq!(rt; formatted(&mut bytes, b"A", b""), Err(2));
        assert_eq!(rt; formatted(&mut bytes, b"A", b"a0Z9"), Err(2));
        Ok(())
    }

    #[test]
    fn sizes(rt: HostRuntime) -> Result<(), Fail> {
        let mut bytes = vec![in rt.alloc(); 0u8; 66_560]?;
        assert_eq!(rt; formatted(&mut bytes[0..66_048], b"A", b"A0Z9"), Err(6));
        assert_eq!(rt; formatted(&mut bytes[0..66_559], b"A", b"A0Z9"), Err(6));
        assert_eq!(rt; formatted(&mut bytes[0..0], b"A", b"A0Z9"), Err(6));
        assert_eq!(rt; formatted(&mut bytes, b"A", b"A0Z9"), Ok(()));
        Ok(())
    }

    // Each field that is checked, spoilt in turn; and those that are not.
    #[test]
    fn fields(rt: HostRuntime) -> Result<(), Fail> {
        let mut bytes = vec![in rt.alloc(); 0u8; 66_560]?;
        for (at, offset) in [
            (0x000, Some(0x000)),
            (0x008, Some(0x000)),
            (0x00A, Some(0x00A)),
            (0x00D, Some(0x00A)),
            (0x00F, Some(0x00F)),
            (0x012, Some(0x00F)),
            (0x019, Some(0x019)),
            (0x01B, Some(0x01B)),
            (0x01C, Some(0x01B)),
            (0x01D, Some(0x01D)),
            (0x1FE, Some(0x1FE)),
            (0x1FF, Some(0x1FE)),
            (0x013, None),
            (0x020, None),
            (0x030, None),
        ] {
            assert_eq!(rt; formatted(&mut bytes, b"A", b"A0Z9"), Ok(()));
            spoil(&mut bytes, at);
            assert_eq!(rt; refused_at(&mut bytes), offset);
        }
        assert_eq!(rt; refused_at(&mut bytes[0..0]), Some(0x000));
        Ok(())
    }
}
