// The public manual's example of a master sector, and its worked figures.
#[cfg(test)]
mod tests {
    use device::Geometry;
    use entries::{Entry, EntryState};
    use layout::{Label, Layout, extent};

    // The manual's dump up to $033, but for three fields that contradict its text: it prints version 1.00 at $00A, the word 1
    // with its high byte first at $01B, and an unlawful id at $030. Here stand 1.06, 01 00 and T1E2.
    const DUMP: [u8; 52] = [
        0x4C, 0x4D, 0x38, 0x30, 0x43, 0x20, 0x44, 0x4F, 0x53, 0x00, 0x31, 0x2E, 0x30, 0x36, 0x00,
        0x07, 0x00, 0x00, 0xA8, 0xD4, 0x03, 0x20, 0x00, 0x10, 0x00, 0x50, 0x0F, 0x01, 0x00, 0xF6,
        0x00, 0x00, 0x54, 0x45, 0x53, 0x54, 0x44, 0x49, 0x53, 0x4B, 0x20, 0x20, 0x20, 0x20, 0x20,
        0x20, 0x20, 0x20, 0x54, 0x31, 0x45, 0x32,
    ];

    fn testdisk() -> Label {
        Label {
            layout: Layout::of(501_760),
            geometry: Geometry {
                cylinders: 980,
                sectors_per_track: 32,
                heads: 16,
            },
            name: *b"TESTDISK        ",
            id: *b"T1E2",
        }
    }

    #[test]
    fn master_sector(rt: HostRuntime) {
        let sector = testdisk().to_sector();
        for (i, b) in sector.iter().enumerate() {
            let want = match i {
                0..52 => DUMP[i],
                510 => 0x38,
                511 => 0x30,
                _ => 0,
            };
            assert_eq!(rt; *b, want);
        }
        assert!(rt; Label::read(&sector, 501_760) == Ok(testdisk()));
    }

    // The manual's example of an entry.
    const MARIO: [u8; 32] = [
        0x4D, 0x41, 0x52, 0x49, 0x4F, 0x20, 0x20, 0x20, 0x20, 0x20, 0x20, 0x20, 0x20, 0x20, 0x20,
        0x20, 0x80, 0x00, 0x00, 0x00, 0x00, 0x00, 0xF6, 0x00, 0x37, 0x00, 0x01, 0x07, 0x5E, 0x00,
        0x00, 0x00,
    ];

    #[test]
    fn entry(rt: HostRuntime) {
        let mario = Entry::decode(&MARIO);
        assert_eq!(rt; mario.name, *b"MARIO           ");
        assert_eq!(rt; mario.kind, 0x80);
        assert_eq!(rt; mario.slot, 0);
        assert_eq!(rt; mario.first, 246);
        assert_eq!(rt; mario.size, 55);
        assert_eq!(rt; mario.sectors, 1);
        assert_eq!(rt; mario.address, 0x5E07);
        assert_eq!(rt; mario.encode(), MARIO);
        assert_eq!(rt; mario.state(&Layout::of(501_760), 0), EntryState::Live);
        assert_eq!(rt; mario.state(&Layout::of(501_760), 1), EntryState::Damaged);
        assert_eq!(rt;
            mario.with_first(0x7F).state(&Layout::of(501_760), 0),
            EntryState::Erased
        );
    }

    #[test]
    fn extents(rt: HostRuntime) {
        for (bytes, sectors, last) in [
            (0, 0, 0),
            (1, 1, 1),
            (512, 1, 512),
            (513, 2, 1),
            (5_121, 11, 1),
            (13_512, 27, 200),
            (65_535, 128, 511),
        ] {
            assert_eq!(rt; extent(bytes), (sectors, last));
        }
    }
}
