// Caches in types of a caller's own: such a type asks of a device that it is one, and for nothing more, whatever the cache stands on.
#[cfg(test)]
mod tests {
    use caching::Cache;
    use device::{Geometry, SectorDevice};
    use layers::{Counting, Span, Window};
    use std::test::Fail;
    use stores::ImageDevice;

    #[derive(Drop)]
    struct OverLent<'a, D: SectorDevice> {
        card: Cache<&'a mut D>,
    }

    #[derive(Drop)]
    struct OverWindow<D: SectorDevice> {
        card: Cache<Window<Cache<D>>>,
    }

    #[derive(Drop)]
    enum Either<D: SectorDevice> {
        Plain(D),
        Counted(Cache<Counting<D>>),
    }

    // The first byte of sector n, if the read is accepted.
    fn first_byte<D: SectorDevice>(device: &mut D, n: u32) -> Option<u8> {
        let mut sector = [0; 512];
        device.read(n, &mut sector).ok()?;
        Some(sector[0])
    }

    fn first_of_either<D: SectorDevice + Drop>(card: Either<D>, n: u32) -> Option<u8> {
        match card {
            Either::Plain(mut card) => first_byte(&mut card, n),
            Either::Counted(mut card) => first_byte(&mut card, n),
        }
    }

    #[test]
    fn held_by_a_caller(rt: HostRuntime) -> Result<(), Fail> {
        let mut bytes = vec![in rt.alloc(); 0u8; 5_120]?;
        let geometry = Geometry {
            cylinders: 1,
            sectors_per_track: 1,
            heads: 10,
        };
        let mut image = ImageDevice::new(&mut bytes, geometry);
        let mut lent = OverLent {
            card: Cache::new(&mut image),
        };
        assert_eq!(rt; lent.card.write(3, &[7; 512]), Ok(()));
        assert_eq!(rt;
            first_of_either(Either::Plain(lent.card.into_beneath()), 3),
            Some(7)
        );
        let counted = Cache::new(Counting::new(&mut image));
        assert_eq!(rt; first_of_either(Either::Counted(counted), 3), Some(7));
        let span = Span { first: 2, count: 4 };
        let mut over = OverWindow {
            card: Cache::new(Window::new(Cache::new(image), span)),
        };
        assert_eq!(rt; first_byte(&mut over.card, 1), Some(7));
        assert_eq!(rt; first_byte(&mut over.card, 4), None);
        Ok(())
    }
}
