//! What is read of the first bytes of a connection.

use std::test::Fail;
use wb_wire::{HeadRead, WireFault, read_head};

#[test]
fn a_connection_has_its_first_head(rt: HostRuntime) -> Result<(), Fail> {
    let bytes = b"GET / HTTP/1.1\r\nContent-Length: 012\r\n\r\nand so on";
    assert!(rt;
        read_head(bytes)
            == HeadRead::Whole {
                head: 39,
                body: 12,
                close: false
            }
    );
    assert!(rt; read_head(&bytes[..38]) == HeadRead::More);
    assert!(rt; read_head(b"") == HeadRead::More);
    assert!(rt; read_head(b"GET / HTTP/2.0\r\n") == HeadRead::No(WireFault::BadHead));
    assert!(rt; read_head(&[b'a'; 8_192]) == HeadRead::No(WireFault::BadHead));
    assert!(rt; read_head(&[b'a'; 8_191]) == HeadRead::More);
    let coded = b"POST / HTTP/1.0\r\nTransfer-Encoding: chunked\r\n\r\n";
    assert!(rt; read_head(coded) == HeadRead::No(WireFault::NoLength));
    Ok(())
}
