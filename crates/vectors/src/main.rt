// FNV-1a 64's published test vectors: each text in C notation and the hash of its bytes, as the published list has
// them. The file stdout beside src/ is that list, not what this program once printed.
#![tactic(auto)]

use hash::StateHash;
use std::io;

fn show(rt: &impl Print, text: &str, bytes: &[u8]) -> io::Result<()> {
    let hash = StateHash::new().absorb_bytes(bytes).finish();
    println!(rt; "\"{text}\" {hash:016x}")
}

fn main(rt: HostRuntime) -> io::Result<()> {
    show(&rt, "", b"")?;
    show(&rt, "a", b"a")?;
    show(&rt, "b", b"b")?;
    show(&rt, "c", b"c")?;
    show(&rt, "d", b"d")?;
    show(&rt, "e", b"e")?;
    show(&rt, "f", b"f")?;
    show(&rt, "fo", b"fo")?;
    show(&rt, "foo", b"foo")?;
    show(&rt, "foob", b"foob")?;
    show(&rt, "fooba", b"fooba")?;
    show(&rt, "foobar", b"foobar")?;
    show(&rt, "hello", b"hello")?;
    show(&rt, "chongo was here!\\n", b"chongo was here!\n")
}
