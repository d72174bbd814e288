// Piles of devices: what is written is read back, and who refuses.
#[cfg(test)]
mod tests {
    use device::{Act, Cause, Fault};
    use layers::Span;
    use piles::{write_and_read, write_through, write_to_sparse};
    use std::test::Fail;

    const SPAN: Span = Span {
        first: 100,
        count: 8,
    };

    #[test]
    fn refused_two_layers_down(rt: HostRuntime) {
        let want = Fault {
            cause: Cause::Device,
            act: Act::Write,
            sector: 105,
            level: 2,
        };
        let mut places = [];
        assert_eq!(rt;
            write_to_sparse(&mut places, 200, SPAN, 5, &[1; 512]),
            Err(want)
        );
        assert_eq!(rt;
            write_to_sparse(&mut places, 200, SPAN, 5, &[0; 512]),
            Ok(())
        );
    }

    #[test]
    fn refused_by_the_window(rt: HostRuntime) {
        let want = Fault::new(Cause::Range, Act::Write, 8);
        let mut places = [];
        assert_eq!(rt;
            write_to_sparse(&mut places, 200, SPAN, 8, &[1; 512]),
            Err(want)
        );
        assert_eq!(rt;
            write_to_sparse(&mut places, 107, SPAN, 8, &[1; 512]),
            Err(want)
        );
        let short = Fault::new(Cause::Length, Act::Write, 8);
        assert_eq!(rt;
            write_to_sparse(&mut places, 200, SPAN, 8, &[1; 511]),
            Err(short)
        );
    }

    #[test]
    fn written_through(rt: HostRuntime) -> Result<(), Fail> {
        let mut bytes = vec![in rt.alloc(); 0u8; 5_120]?;
        assert!(rt; write_and_read(&mut bytes, Span { first: 2, count: 4 }, 3, &[7; 512]).is_ok());
        let (answer, bytes) = write_through(&mut bytes, Span { first: 2, count: 4 }, 1, &[9; 512]);
        assert_eq!(rt; answer, Ok(()));
        assert_eq!(rt; bytes.get(512 * 3).copied(), Some(9));
        assert_eq!(rt; bytes.get(512 * 4).copied(), Some(0));
        assert_eq!(rt; bytes.get(512 * 5).copied(), Some(7));
        Ok(())
    }
}
