use crate::{MemSink, MemSource, ReadEnd, StdSink, StdSource, WriteFault, read_all, write_all};
use std::io::{ErrorKind, Read, Write};
use std::test::Fail;

const TEXT: &[u8] = b"abcdef";

#[test]
fn a_source_is_read_to_its_end_or_names_the_cause(rt: HostRuntime) -> Result<(), Fail> {
    let alloc = rt.alloc();
    let cases: [(usize, u64, usize, Option<ReadEnd>); 6] = [
        (4, 3, 6, None),
        (64, 2, 4096, None),
        (4, 9, 5, Some(ReadEnd::TooLong)),
        (4, 1, 6, Some(ReadEnd::Fault)),
        (4, 2, 6, Some(ReadEnd::Fault)),
        (4, 1, 3, Some(ReadEnd::TooLong)),
    ];
    for (piece, fails, limit, want) in cases {
        let bytes = TEXT.to_vec(alloc)?;
        assert!(rt; piece >= 1 && limit < 4097);
        let mut source = MemSource::new(bytes, piece, [fails].to_vec(alloc)?);
        match read_all(alloc, &mut source, limit) {
            Ok(read) => {
                assert_eq!(rt; want, None);
                assert_eq!(rt; read.as_slice(), TEXT);
            }
            Err(end) => assert_eq!(rt;
                want,
                Some(end),
                "piece {piece}, failing call {fails}, limit {limit}"
            ),
        }
    }
    Ok(())
}

#[test]
fn a_sink_takes_all_or_a_proper_prefix(rt: HostRuntime) -> Result<(), Fail> {
    let alloc = rt.alloc();
    let cases: [(usize, usize, u64, Result<(), WriteFault>, usize); 5] = [
        (6, 4, 9, Ok(()), 6),
        (64, 64, 1, Ok(()), 6),
        (5, 4, 9, Err(WriteFault), 5),
        (6, 4, 1, Err(WriteFault), 4),
        (64, 64, 0, Err(WriteFault), 0),
    ];
    for (room, piece, fails, want, count) in cases {
        assert!(rt; piece >= 1 && count <= 6);
        let mut sink = MemSink::new(alloc, room, piece, [fails].to_vec(alloc)?)?;
        assert_eq!(rt;
            write_all(&mut sink, TEXT),
            want,
            "room {room}, piece {piece}, failing call {fails}"
        );
        assert_eq!(rt;
            sink.written(),
            &TEXT[..count],
            "room {room}, piece {piece}, failing call {fails}"
        );
    }
    Ok(())
}

const LONG: [u8; 100_000] = [b'x'; 100_000];

#[test]
fn each_call_offers_all_that_is_left(rt: HostRuntime) -> Result<(), Fail> {
    let alloc = rt.alloc();
    // The second call fails, so the first one must take the whole text.
    let mut sink = MemSink::new(alloc, LONG.len(), LONG.len(), [1].to_vec(alloc)?)?;
    assert_eq!(rt; write_all(&mut sink, &LONG), Ok(()));
    assert_eq!(rt; sink.written().len(), LONG.len());
    Ok(())
}

#[test]
fn the_streams_of_std_are_a_source_and_a_sink(rt: HostRuntime) -> Result<(), Fail> {
    let mut source = StdSource::over(TEXT);
    let read = read_all(rt.alloc(), &mut source, 6).map_err(|_| "not read")?;
    assert_eq!(rt; read.as_slice(), TEXT);
    let mut sink = StdSink::over(rt.stdout());
    assert_eq!(rt; write_all(&mut sink, read.as_slice()), Ok(()));
    Ok(())
}

#[test]
fn a_writer_of_std_gets_the_bytes_until_it_is_full(rt: HostRuntime) -> Result<(), Fail> {
    let alloc = rt.alloc();
    let mut kept: Vec<u8> = Vec::new(alloc);
    let mut sink = StdSink::over(&mut kept);
    assert_eq!(rt; write_all(&mut sink, TEXT), Ok(()));
    assert_eq!(rt; kept.as_slice(), TEXT);
    let mut room = [0; 4];
    let mut sink = StdSink::over(room.as_mut_slice());
    assert_eq!(rt; write_all(&mut sink, TEXT), Err(WriteFault));
    assert_eq!(rt; &room, b"abcd");
    Ok(())
}

// A stream that refuses a write before the one before is flushed.
#[derive(Drop)]
struct Unflushed {
    waits: bool,
    most: usize,
}

impl Write for Unflushed {
    fn write(&mut self, buf: &[u8]) -> std::io::Result<usize> {
        if self.waits {
            return Err(ErrorKind::Other.into());
        }
        self.waits = true;
        Ok(buf.len().min(self.most))
    }

    fn flush(&mut self) -> std::io::Result<()> {
        self.waits = false;
        Ok(())
    }
}

#[test]
fn each_write_is_flushed(rt: HostRuntime) -> Result<(), Fail> {
    for most in [1, 6, 7, 4096, LONG.len()] {
        let mut stream = Unflushed { waits: false, most };
        let mut sink = StdSink::over(&mut stream);
        assert_eq!(rt; write_all(&mut sink, TEXT), Ok(()), "at most {most} bytes");
        assert_eq!(rt; write_all(&mut sink, &LONG), Ok(()), "at most {most} bytes");
        assert!(rt; !stream.waits, "at most {most} bytes");
    }
    Ok(())
}

// A stream of which a read and a flush fail.
#[derive(Drop)]
struct Broken;

impl Read for Broken {
    fn read(&mut self, _buf: &mut [u8]) -> std::io::Result<usize> {
        Err(ErrorKind::Other.into())
    }
}

impl Write for Broken {
    fn write(&mut self, buf: &[u8]) -> std::io::Result<usize> {
        Ok(buf.len())
    }

    fn flush(&mut self) -> std::io::Result<()> {
        Err(ErrorKind::Other.into())
    }
}

#[test]
fn an_error_of_std_is_a_fault(rt: HostRuntime) -> Result<(), Fail> {
    let mut source = StdSource::over(Broken);
    let end = read_all(rt.alloc(), &mut source, 6).err();
    assert_eq!(rt; end, Some(ReadEnd::Fault));
    let mut sink = StdSink::over(Broken);
    assert_eq!(rt; write_all(&mut sink, TEXT), Err(WriteFault));
    Ok(())
}

#[test]
fn each_end_of_reading_has_its_number(rt: HostRuntime) -> Result<(), Fail> {
    let numbers = [
        ReadEnd::Fault as u8,
        ReadEnd::TooLong as u8,
        ReadEnd::NoMemory as u8,
    ];
    assert_eq!(rt; numbers, [1, 2, 3]);
    Ok(())
}
