//! The sink in memory.

use fisca_writer::{MemorySink, RowSink};

#[test]
fn a_sink_in_memory_takes_whole_pieces(rt: HostRuntime) {
    let mut sink = MemorySink::new(rt.alloc());
    assert_eq!(rt; sink.bytes(), b"".as_slice());
    assert_eq!(rt; sink.take(b"ab"), Ok(2));
    assert_eq!(rt; sink.take(b""), Ok(0));
    assert_eq!(rt; sink.take(b"c"), Ok(1));
    assert_eq!(rt; sink.bytes(), b"abc".as_slice());
    assert_eq!(rt; sink.failures(), 0);
}
